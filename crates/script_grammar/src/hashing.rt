//! The hashing of a script's names.

use crate::{Leaf, LeafKind};
use std::hash::{BuildHasher, DefaultHasher, Hash, Hasher};

/// Makes the hashers of the tables that a script fills with its names. They begin with a key that is made of all names and texts of the script, so that a name
/// which is chosen to meet another one in a table changes where both stand.
#[derive(Clone, Copy)]
pub struct NameHashing {
    start: DefaultHasher,
}

impl NameHashing {
    /// The hashing of a script with these leaves.
    pub fn of(leaves: &[Leaf]) -> NameHashing {
        let mut texts = DefaultHasher::new();
        for leaf in leaves {
            feed(&leaf.kind, &mut texts);
        }
        let mut start = DefaultHasher::new();
        start.write_u64(texts.finish());
        NameHashing { start }
    }
}

/// Feeds a hasher the code units of a name or a text.
fn feed(kind: &LeafKind, hasher: &mut DefaultHasher) {
    match kind {
        LeafKind::Name(units) => units.hash(hasher),
        LeafKind::Text { units, .. } => units.hash(hasher),
        LeafKind::Number(_) => {}
        LeafKind::Punctuator => {}
    }
}

impl BuildHasher for NameHashing {
    type Hasher = DefaultHasher;

    ghost build_hasher = { λ s. s.start };

    fn build_hasher(&self) -> DefaultHasher {
        self.start
    }
}

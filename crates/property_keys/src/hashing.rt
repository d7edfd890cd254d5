//! The hashing of the tables that a run fills.

ghost use Rattle.std.specs.Prelude.{◌≡◌};
ghost use Rattle.property_keys.specs.Hashing.{hashing_of};

use std::hash::{BuildHasher, DefaultHasher, Hasher};

/// Makes the hashers of the tables that a run fills. They begin with a key that is made of all bytes of the script's file. So a run is the same each time, and
/// whoever chooses what is to meet in a table writes it into the file, which changes the key.
#[derive(Clone, Copy)]
pub struct RunHashing {
    start: DefaultHasher,
}

impl RunHashing {
    /// The hashing of a run of a file with these bytes.
    pub fn of(bytes: &[u8]) -> RunHashing
        ensures { result ≡ hashing_of bytes.now }
    {
        let mut file = DefaultHasher::new();
        file.write(bytes);
        let mut start = DefaultHasher::new();
        start.write_u64(file.finish());
        RunHashing { start }
    }
}

impl BuildHasher for RunHashing {
    type Hasher = DefaultHasher;

    ghost build_hasher = { λ s. s.start };

    fn build_hasher(&self) -> DefaultHasher {
        self.start
    }
}

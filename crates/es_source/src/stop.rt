//! Why a reader stops.

use crate::SourceFault;
use property_keys::NoMemory;

/// Why a source has no tokens, or no tree.
#[derive(Clone, Copy, Debug, PartialEq, Eq)]
pub enum ReadStop {
    /// The source is outside the profile.
    Fault(SourceFault),
    /// Memory ran out.
    NoMemory,
}

impl From<NoMemory> for ReadStop {
    ghost use Rattle.std.specs.Prelude.{◌≡◌};
    ghost use Rattle.es_source.specs.declared.stop.ReadStop.TheVariants as stop;

    ghost from_gives = { λ _ e. e ≡ stop.NoMemory };

    fn from(_: NoMemory) -> ReadStop {
        ReadStop::NoMemory
    }
}

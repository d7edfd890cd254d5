//! The faults of a file.

ghost use Rattle.std.specs.Prelude.{◌≡◌};
ghost use Rattle.es_source.specs.Codes.{code_number, fault_name};

use crate::Place;

/// Why a source is outside the profile. The number of a code is its place in this list, from 1.
#[derive(Clone, Copy, Debug, PartialEq, Eq)]
pub enum FaultCode {
    /// The file has more than 2^22 bytes.
    TooLong = 1,
    /// The file is not well-formed UTF-8.
    NotUtf8 = 2,
    /// No token begins here.
    BadToken = 3,
    /// No script goes on with this token.
    Unexpected = 4,
    /// The token stands in too many productions.
    TooDeep = 5,
    /// A name is bound twice in one scope, or `__proto__` is written twice in one object literal.
    Duplicate = 6,
    /// A function uses a local name of the code around it.
    Capture = 7,
    /// A name may not be bound or assigned to.
    BadBinding = 8,
    /// A word stands where it means nothing.
    Misplaced = 9,
}

impl FaultCode {
    /// The number of the code, from 1.
    pub fn number(self) -> u8
        ensures { result ≡ code_number self }
    {
        self as u8
    }

    /// The name of the code.
    pub fn name(self) -> &'static str
        ensures { result.now ≡ fault_name self }
    {
        match self {
            FaultCode::TooLong => "TooLong",
            FaultCode::NotUtf8 => "NotUtf8",
            FaultCode::BadToken => "BadToken",
            FaultCode::Unexpected => "Unexpected",
            FaultCode::TooDeep => "TooDeep",
            FaultCode::Duplicate => "Duplicate",
            FaultCode::Capture => "Capture",
            FaultCode::BadBinding => "BadBinding",
            FaultCode::Misplaced => "Misplaced",
        }
    }
}

/// The first fault of a source, with its place.
#[derive(Clone, Copy, Debug, PartialEq, Eq)]
pub struct SourceFault {
    pub code: FaultCode,
    pub place: Place,
}

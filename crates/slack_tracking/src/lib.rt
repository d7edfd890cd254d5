//! The origins of objects, and the slack of each: how many places its objects have for fields, until enough were constructed.
#![tactic(auto)]

ghost use Rattle.std.specs.Prelude.{◌≡◌};
ghost use Rattle.slack_tracking.specs.Slack.{same_origin};

mod origins;

use es_source::Place;
pub use origins::Origins;

/// What makes the objects of an origin.
#[derive(Clone, Copy, Debug, PartialEq, Eq, Hash)]
pub enum OriginKind {
    /// A built-in function or an operation that makes an ordinary object.
    Plain,
    Function,
    Array,
    Arguments,
    Wrapper,
    Error,
    /// An object literal of the script, with the place at which it begins.
    Literal(Place),
    /// A function of the script that constructs, with the place at which it begins.
    Constructor(Place),
}

impl OriginKind {
    /// Whether both are the same operation, or the same place of the script.
    pub fn is_same(self, other: OriginKind) -> bool
        ensures { result ≡ same_origin self other }
    {
        match (self, other) {
            (OriginKind::Plain, OriginKind::Plain)
            | (OriginKind::Function, OriginKind::Function)
            | (OriginKind::Array, OriginKind::Array)
            | (OriginKind::Arguments, OriginKind::Arguments)
            | (OriginKind::Wrapper, OriginKind::Wrapper)
            | (OriginKind::Error, OriginKind::Error) => true,
            (OriginKind::Literal(a), OriginKind::Literal(b)) => a.is_same(b),
            (OriginKind::Constructor(a), OriginKind::Constructor(b)) => a.is_same(b),
            _ => false,
        }
    }
}

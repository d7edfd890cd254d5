//! Laws of the abstract operations.

ghost use Rattle.plain_builtins.specs.Laws.{RoundsSuffice};

/// OrdinaryHasInstance has rounds enough for every run, since each takes a turn.
pub fn instance_rounds_suffice()
    ensures { RoundsSuffice }
{}

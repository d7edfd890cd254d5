//! Worked examples of ValidateAndApplyPropertyDescriptor (ECMA-262, 10.1.6.3).

ghost use Rattle.small_changes.specs.Verdicts.{AccessorsChanged, AccessorsMade, ClosedTakesNone, CompletedOnes, ConfigurableDecides, EnumerableDecides, FunctionsDecide, KindDecides, NothingIsWanted, ValuesChanged, ValuesMade, VerdictsAnswer, WritableDecides};

/// Step 2: no property is there.
pub fn new_properties_are_completed()
    ensures closed_takes_none { ClosedTakesNone }
    ensures completed_ones { CompletedOnes }
{}

/// Step 4.
pub fn no_field_is_wanted()
    ensures { NothingIsWanted }
{}

/// Step 5: what each flag decides of a property that is not configurable.
pub fn fixed_properties_are_kept()
    ensures configurable_decides { ConfigurableDecides }
    ensures enumerable_decides { EnumerableDecides }
    ensures kind_decides { KindDecides }
    ensures functions_decide { FunctionsDecide }
    ensures writable_decides { WritableDecides }
{}

/// Steps 6.a and 6.b.
pub fn kinds_change()
    ensures accessors_made { AccessorsMade }
    ensures values_made { ValuesMade }
{}

/// Step 6.c.
pub fn fields_change()
    ensures values_changed { ValuesChanged }
    ensures accessors_changed { AccessorsChanged }
{}

/// What a verdict answers.
pub fn verdicts_answer()
    ensures { VerdictsAnswer }
{}

//! Worked examples of evaluation.

ghost use Rattle.small_worlds.specs.Evaluations.{AbsentIsPut, AbsentNameThrows, AbsentPutThrows, AndStops, ArrayIsLeft, ArrayIsMade, AtLeastInOrder, AtMostInOrder, BreakDropsThrow, BreakLeavesLoop, BreakLeavesOneLoop, CellIsPut, CoalesceGoesOn, CompoundInOrder, ConstantThrows, ContinueSteps, DeadNameThrows, DeadPutThrows, DeleteRefusedThrows, ElementIsRead, ElseIsTaken, EqualIsAsked, FinallyHasItsEnd, FinallyKeepsEnd, FinallyThrowsInstead, GlobalHasNoReceiver, GlobalIsRead, GoneIsPut, GoneNameIsUndefined, GoneNameThrows, GonePutThrows, GreaterInOrder, HaltPassesFinally, HaltsAtLink, HaltsAtRight, HoleRaisesLength, InConvertsKey, InWantsObject, InstanceIsAsked, KeyIsConvertedFirst, LastIsGiven, LengthIsNotDeleted, LessInOrder, LiteralIsLeft, LiteralIsMade, MemberIsCalled, MemberIsDeleted, MemberIsRead, MemberIsUpdated, MinusConverts, NameIsRead, NewIsGiven, NoRemainderThrows, NotEqualIsAsked, NotOfNumber, NotStrictlyEqualAsksNothing, NullIsNotPut, NullIsNotRead, NumberConstructsNothing, NumberGoesUp, NumberIsAtLeast, NumberIsAtMost, NumberIsDeleted, NumberIsGreater, NumberIsLess, NumbersAreAdded, NumbersAreMultiplied, NumbersAreSubtracted, ObjectIsAdded, ObjectIsConstructed, OldIsGiven, OrStops, OtherIsTaken, PlusConverts, RefusedPasses, RefusedThrows, ReturnIsKept, RightSideThrowsFirst, ScopeHasCell, StrictlyEqualAsksNothing, TextGoesUp, TextHasLength, TextHasUnits, TextsAreJoined, ThisIsGiven, ThrownIsCaught, TypeofAbsent, TypeofDeadThrows, TypeofNumber, ValueIsCalled, VoidIsUndefined};

/// Names: cells, the dead zone, and the two looks at the global object, in strict code and other code.
#[tactic(auto, unfolding(es_model::specs::Changes::changed, es_model::specs::Changes::charged, es_model::specs::Changes::printed_more, es_model::specs::Changes::added, es_model::specs::Changes::made, es_model::specs::Changes::text_known, es_model::specs::Changes::cell_made, es_model::specs::Changes::cell_set, es_model::specs::World::allows, es_model::specs::World::number_of))]
pub fn names_are_looked_up()
    ensures name_is_read { NameIsRead }
    ensures dead_name_throws { DeadNameThrows }
    ensures absent_name_throws { AbsentNameThrows }
    ensures global_is_read { GlobalIsRead }
    ensures gone_name_throws { GoneNameThrows }
    ensures gone_name_is_undefined { GoneNameIsUndefined }
    ensures typeof_absent { TypeofAbsent }
    ensures typeof_dead_throws { TypeofDeadThrows }
    ensures absent_put_throws { AbsentPutThrows }
    ensures absent_is_put { AbsentIsPut }
    ensures gone_put_throws { GonePutThrows }
    ensures gone_is_put { GoneIsPut }
    ensures constant_throws { ConstantThrows }
    ensures dead_put_throws { DeadPutThrows }
    ensures cell_is_put { CellIsPut }
{}

/// Member accesses: the order of base, key, right side, read and write; primitive bases; what a refusal comes to.
#[tactic(auto, unfolding(es_model::specs::Changes::changed, es_model::specs::Changes::charged, es_model::specs::Changes::printed_more, es_model::specs::Changes::added, es_model::specs::Changes::made, es_model::specs::Changes::text_known, es_model::specs::Changes::cell_made, es_model::specs::Changes::cell_set, es_model::specs::World::allows, es_model::specs::World::number_of))]
pub fn members_are_accessed()
    ensures member_is_read { MemberIsRead }
    ensures element_is_read { ElementIsRead }
    ensures null_is_not_read { NullIsNotRead }
    ensures right_side_throws_first { RightSideThrowsFirst }
    ensures null_is_not_put { NullIsNotPut }
    ensures key_is_converted_first { KeyIsConvertedFirst }
    ensures compound_in_order { CompoundInOrder }
    ensures text_has_length { TextHasLength }
    ensures text_has_units { TextHasUnits }
    ensures text_goes_up { TextGoesUp }
    ensures number_goes_up { NumberGoesUp }
    ensures refused_throws { RefusedThrows }
    ensures refused_passes { RefusedPasses }
    ensures member_is_deleted { MemberIsDeleted }
    ensures delete_refused_throws { DeleteRefusedThrows }
    ensures number_is_deleted { NumberIsDeleted }
    ensures length_is_not_deleted { LengthIsNotDeleted }
{}

/// Operators, each once: what they ask, in which order, and what they give.
#[tactic(auto, unfolding(es_model::specs::Changes::changed, es_model::specs::Changes::charged, es_model::specs::Changes::printed_more, es_model::specs::Changes::added, es_model::specs::Changes::made, es_model::specs::Changes::text_known, es_model::specs::Changes::cell_made, es_model::specs::Changes::cell_set, es_model::specs::World::allows, es_model::specs::World::number_of))]
pub fn operators_are_applied()
    ensures numbers_are_added { NumbersAreAdded }
    ensures object_is_added { ObjectIsAdded }
    ensures texts_are_joined { TextsAreJoined }
    ensures numbers_are_subtracted { NumbersAreSubtracted }
    ensures numbers_are_multiplied { NumbersAreMultiplied }
    ensures no_remainder_throws { NoRemainderThrows }
    ensures less_in_order { LessInOrder }
    ensures greater_in_order { GreaterInOrder }
    ensures at_most_in_order { AtMostInOrder }
    ensures at_least_in_order { AtLeastInOrder }
    ensures number_is_less { NumberIsLess }
    ensures number_is_greater { NumberIsGreater }
    ensures number_is_at_most { NumberIsAtMost }
    ensures number_is_at_least { NumberIsAtLeast }
    ensures equal_is_asked { EqualIsAsked }
    ensures not_equal_is_asked { NotEqualIsAsked }
    ensures strictly_equal_asks_nothing { StrictlyEqualAsksNothing }
    ensures not_strictly_equal_asks_nothing { NotStrictlyEqualAsksNothing }
    ensures instance_is_asked { InstanceIsAsked }
    ensures in_converts_key { InConvertsKey }
    ensures in_wants_object { InWantsObject }
    ensures not_of_number { NotOfNumber }
    ensures void_is_undefined { VoidIsUndefined }
    ensures plus_converts { PlusConverts }
    ensures minus_converts { MinusConverts }
    ensures typeof_number { TypeofNumber }
    ensures and_stops { AndStops }
    ensures or_stops { OrStops }
    ensures coalesce_goes_on { CoalesceGoesOn }
    ensures other_is_taken { OtherIsTaken }
    ensures last_is_given { LastIsGiven }
    ensures old_is_given { OldIsGiven }
    ensures new_is_given { NewIsGiven }
    ensures member_is_updated { MemberIsUpdated }
{}

/// Calls and `new`: the function, its receiver, the arguments, the call.
#[tactic(auto, unfolding(es_model::specs::Changes::changed, es_model::specs::Changes::charged, es_model::specs::Changes::printed_more, es_model::specs::Changes::added, es_model::specs::Changes::made, es_model::specs::Changes::text_known, es_model::specs::Changes::cell_made, es_model::specs::Changes::cell_set, es_model::specs::World::allows, es_model::specs::World::number_of))]
pub fn calls_are_made()
    ensures member_is_called { MemberIsCalled }
    ensures value_is_called { ValueIsCalled }
    ensures global_has_no_receiver { GlobalHasNoReceiver }
    ensures object_is_constructed { ObjectIsConstructed }
    ensures number_constructs_nothing { NumberConstructsNothing }
{}

/// `this`, an object literal with a key that is computed, and array literals.
#[tactic(auto, unfolding(es_model::specs::Changes::changed, es_model::specs::Changes::charged, es_model::specs::Changes::printed_more, es_model::specs::Changes::added, es_model::specs::Changes::replaced, es_model::specs::Changes::made, es_model::specs::Changes::text_known, es_model::specs::Changes::cell_made, es_model::specs::Changes::cell_set, es_model::specs::World::allows, es_model::specs::World::number_of))]
pub fn primaries_are_evaluated()
    ensures this_is_given { ThisIsGiven }
    ensures literal_is_made { LiteralIsMade }
    ensures literal_is_left { LiteralIsLeft }
    ensures array_is_made { ArrayIsMade }
    ensures hole_raises_length { HoleRaisesLength }
    ensures array_is_left { ArrayIsLeft }
{}

/// Blocks, loops, `if` and `try`: scopes, and which ends leave what.
#[tactic(auto, unfolding(es_model::specs::Changes::changed, es_model::specs::Changes::charged, es_model::specs::Changes::printed_more, es_model::specs::Changes::added, es_model::specs::Changes::made, es_model::specs::Changes::text_known, es_model::specs::Changes::cell_made, es_model::specs::Changes::cell_set, es_model::specs::World::allows, es_model::specs::World::number_of))]
pub fn statements_run()
    ensures scope_has_cell { ScopeHasCell }
    ensures break_leaves_loop { BreakLeavesLoop }
    ensures break_leaves_one_loop { BreakLeavesOneLoop }
    ensures continue_steps { ContinueSteps }
    ensures thrown_is_caught { ThrownIsCaught }
    ensures finally_has_its_end { FinallyHasItsEnd }
    ensures finally_keeps_end { FinallyKeepsEnd }
    ensures return_is_kept { ReturnIsKept }
    ensures break_drops_throw { BreakDropsThrow }
    ensures finally_throws_instead { FinallyThrowsInstead }
    ensures else_is_taken { ElseIsTaken }
{}

/// The turn at which an expression halts, and that no `finally` sees it.
#[tactic(auto, unfolding(es_model::specs::Changes::changed, es_model::specs::Changes::charged, es_model::specs::Changes::printed_more, es_model::specs::Changes::added, es_model::specs::Changes::made, es_model::specs::Changes::text_known, es_model::specs::Changes::cell_made, es_model::specs::Changes::cell_set, es_model::specs::World::allows, es_model::specs::World::number_of))]
pub fn halts_are_exact()
    ensures halts_at_right { HaltsAtRight }
    ensures halts_at_link { HaltsAtLink }
    ensures halt_passes_finally { HaltPassesFinally }
{}

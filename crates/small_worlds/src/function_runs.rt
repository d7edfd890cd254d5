//! Worked examples of functions of the script.

ghost use Rattle.small_worlds.specs.FunctionRuns.{ArgumentIsBound, DeclaredIsGlobal, DeclaredTakesParameter, EmptyBodyGivesUndefined, HaltsAtDeclared, HaltsInBody, LastDeclaredIsMade, LastValueIsDropped, LexicalNameIsDead, MoreArgumentsAreDropped, NewObjectIsGiven, NewObjectIsReceiver, NoArgumentIsUndefined, NoFunctionThrows, NoPrototypeThrows, NullIsGlobal, NumberIsWrapped, ObjectIsReceiver, ObjectIsResult, OtherPrototypeIsTheRealms, OwnNameIsCallee, OwnNameIsConstant, OwnNameIsNotPut, PrimitiveIsDropped, PrototypeIsAskedFor, PrototypeIsTaken, ReturnLeaves, ScriptDeclares, ScriptGivesUndefined, SecondIsBound, SecondIsUndefined, StrictNumberIsKept, StrictReceiverIsKept, ThrowEndsConstruction, ThrowIsNoted, ThrowPasses, TopNamesHaveCells, UndefinedIsGlobal};

/// Calls: arguments, receivers, ends of bodies, and a halt in one.
#[tactic(auto, unfolding(es_model::specs::Changes::changed, es_model::specs::Changes::charged, es_model::specs::Changes::printed_more, es_model::specs::Changes::added, es_model::specs::Changes::made, es_model::specs::Changes::text_known, es_model::specs::Changes::cell_made, es_model::specs::Changes::cell_set, es_model::specs::World::allows, es_model::specs::World::number_of, function_objects::specs::Making::parameter_count))]
pub fn calls_run_bodies()
    ensures empty_body_gives_undefined { EmptyBodyGivesUndefined }
    ensures argument_is_bound { ArgumentIsBound }
    ensures no_argument_is_undefined { NoArgumentIsUndefined }
    ensures more_arguments_are_dropped { MoreArgumentsAreDropped }
    ensures second_is_bound { SecondIsBound }
    ensures second_is_undefined { SecondIsUndefined }
    ensures strict_receiver_is_kept { StrictReceiverIsKept }
    ensures strict_number_is_kept { StrictNumberIsKept }
    ensures undefined_is_global { UndefinedIsGlobal }
    ensures null_is_global { NullIsGlobal }
    ensures number_is_wrapped { NumberIsWrapped }
    ensures object_is_receiver { ObjectIsReceiver }
    ensures own_name_is_callee { OwnNameIsCallee }
    ensures own_name_is_constant { OwnNameIsConstant }
    ensures own_name_is_not_put { OwnNameIsNotPut }
    ensures throw_passes { ThrowPasses }
    ensures last_value_is_dropped { LastValueIsDropped }
    ensures return_leaves { ReturnLeaves }
    ensures halts_in_body { HaltsInBody }
    ensures no_function_throws { NoFunctionThrows }
{}

/// Declared functions and lexical names of a body.
#[tactic(auto, unfolding(es_model::specs::Changes::changed, es_model::specs::Changes::charged, es_model::specs::Changes::printed_more, es_model::specs::Changes::added, es_model::specs::Changes::made, es_model::specs::Changes::text_known, es_model::specs::Changes::cell_made, es_model::specs::Changes::cell_set, es_model::specs::World::allows, es_model::specs::World::number_of, function_objects::specs::Making::parameter_count))]
pub fn declared_functions_are_made()
    ensures declared_takes_parameter { DeclaredTakesParameter }
    ensures last_declared_is_made { LastDeclaredIsMade }
    ensures halts_at_declared { HaltsAtDeclared }
    ensures lexical_name_is_dead { LexicalNameIsDead }
{}

/// Constructions: the new object, its prototype, what a body returns or throws.
#[tactic(auto, unfolding(es_model::specs::Changes::changed, es_model::specs::Changes::charged, es_model::specs::Changes::printed_more, es_model::specs::Changes::added, es_model::specs::Changes::made, es_model::specs::Changes::text_known, es_model::specs::Changes::cell_made, es_model::specs::Changes::cell_set, es_model::specs::Changes::construction_noted, es_model::specs::World::allows, es_model::specs::World::number_of, function_objects::specs::Making::parameter_count))]
pub fn constructors_run()
    ensures new_object_is_given { NewObjectIsGiven }
    ensures primitive_is_dropped { PrimitiveIsDropped }
    ensures object_is_result { ObjectIsResult }
    ensures new_object_is_receiver { NewObjectIsReceiver }
    ensures throw_ends_construction { ThrowEndsConstruction }
    ensures no_prototype_throws { NoPrototypeThrows }
    ensures throw_is_noted { ThrowIsNoted }
    ensures prototype_is_taken { PrototypeIsTaken }
    ensures other_prototype_is_the_realms { OtherPrototypeIsTheRealms }
    ensures prototype_is_asked_for { PrototypeIsAskedFor }
{}

/// Scripts: their declared functions and names, and how they end.
#[tactic(auto, unfolding(es_model::specs::Changes::changed, es_model::specs::Changes::charged, es_model::specs::Changes::printed_more, es_model::specs::Changes::added, es_model::specs::Changes::made, es_model::specs::Changes::text_known, es_model::specs::Changes::cell_made, es_model::specs::Changes::cell_set, es_model::specs::World::allows, es_model::specs::World::number_of, function_objects::specs::Making::parameter_count))]
pub fn scripts_declare()
    ensures script_declares { ScriptDeclares }
    ensures declared_is_global { DeclaredIsGlobal }
    ensures top_names_have_cells { TopNamesHaveCells }
    ensures script_gives_undefined { ScriptGivesUndefined }
{}

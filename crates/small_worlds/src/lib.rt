//! Worked examples of the model. Each function here only names what requests come to in small worlds.
#![tactic(auto)]

mod builtins;
mod conversations;
mod evaluations;
mod function_names;
mod function_runs;
mod requests;

ghost use Rattle.small_worlds.specs.SmallWorlds.{CallEnters, CallHalts, CallIsTheLast, CallOfObject, CallOfProxy, CallOfUndefined, CallTooDeep, ConstructOfFunction, CycleHalts, CycleRefused, CycleThroughProxy, DefineAdds, DefineAddsEmpty, DefineGetter, DefineGetterOverFixed, DefineHides, DefineKeeps, DefineKeepsFixed, DefineNoGetter, DefineNothing, DefineOnClosed, DefineOverFixed, DefineOverGetter, DefineShowsFixed, DeleteAbsent, DeleteFixed, DeleteOpen, GetCallsGetter, GetGoesUp, GetHaltsAtGetter, GetHandsReceiver, GetOfNothing, GetWithoutGetter, GetterHasReceiver, HasEntersProxy, HasGoesUp, HasHalts, HasNot, ImmutableRefused, ImmutableSame, IndexIsPut, IndexIsRemoved, IsClosed, IsOpen, KeysInOrder, NoKey, NoReceiver, NullIsSet, OtherOnClosed, PlainIsNoProxy, PreventAgain, PreventCloses, ProxyBelongs, ReadForOther, ReadIsNoted, ReadOfIndex, SameOnClosed, SameOnOpen, SelfRefused, SetAdds, SetBelongs, SetCallsSetter, SetHandsReceiver, SetOnClosed, SetOnNoObject, SetOverFunctions, SetOverReadOnly, SetReadOnly, SetReplaces, SetWithoutSetter, SetterHasValue, SetterReturns, WholeChainIsSet, WriteIsNoted};

pub use builtins::{
    errors_are_made, functions_are_called, numbers_are_written, symbols_are_made,
    truth_values_are_given,
};
pub use conversations::{
    descriptors_are_read, instances_are_found, keys_are_made, lines_are_asked_for, lists_are_made,
    numbers_are_read, objects_are_wrapped, primitives_are_converted, texts_are_made,
    values_are_compared, values_are_ordered,
};
pub use evaluations::{
    calls_are_made, halts_are_exact, members_are_accessed, names_are_looked_up,
    operators_are_applied, primaries_are_evaluated, statements_run,
};
pub use function_names::{definitions_name, places_name};
pub use function_runs::{
    calls_run_bodies, constructors_run, declared_functions_are_made, scripts_declare,
};
pub use requests::{
    code_units_have_keys, hidden_ones_stay_hidden, lines_are_printed, own_properties_are_given,
    primitives_take_nothing, prototypes_are_given, walks_are_noted,
};

/// `[[Get]]` goes up the prototypes to a value, a getter or nothing.
#[tactic(auto, unfolding(es_serve::specs::Serve::model, es_model::specs::Weights::renewed, es_model::specs::Changes::charged))]
pub fn get_goes_up_the_chain()
    ensures get_goes_up { GetGoesUp }
    ensures get_of_nothing { GetOfNothing }
    ensures get_calls_getter { GetCallsGetter }
    ensures get_without_getter { GetWithoutGetter }
    ensures get_halts_at_getter { GetHaltsAtGetter }
{}

/// What `[[Get]]` and `[[Set]]` hand on: the receiver to prototypes and functions, the value to a setter.
#[tactic(auto, unfolding(es_model::specs::Changes::charged))]
pub fn receivers_are_handed_on()
    ensures get_hands_receiver { GetHandsReceiver }
    ensures getter_has_receiver { GetterHasReceiver }
    ensures set_hands_receiver { SetHandsReceiver }
    ensures setter_returns { SetterReturns }
    ensures setter_has_value { SetterHasValue }
{}

/// An access at a site is noted where it counts, before the algorithm starts.
#[tactic(auto, unfolding(es_serve::specs::Serve::model, es_model::specs::Weights::renewed, es_model::specs::Changes::changed, es_model::specs::Changes::charged, es_model::specs::Changes::access_noted, es_model::specs::Changes::added, es_model::specs::World::allows))]
pub fn accesses_are_noted()
    ensures read_is_noted { ReadIsNoted }
    ensures read_for_other { ReadForOther }
    ensures read_of_index { ReadOfIndex }
    ensures write_is_noted { WriteIsNoted }
{}

/// `[[HasProperty]]` halts at the turn that is not there.
#[tactic(auto, unfolding(es_serve::specs::Serve::model, es_model::specs::Weights::renewed, es_model::specs::Changes::charged))]
pub fn has_halts_in_the_chain()
    ensures has_halts { HasHalts }
    ensures has_goes_up { HasGoesUp }
    ensures has_not { HasNot }
    ensures has_enters_proxy { HasEntersProxy }
{}

/// `[[Set]]` gives false at each of its steps that do, and changes nothing.
#[tactic(auto, unfolding(es_serve::specs::Serve::model, es_model::specs::Weights::renewed, es_model::specs::Changes::changed, es_model::specs::World::allows))]
pub fn set_refuses()
    ensures set_read_only { SetReadOnly }
    ensures set_on_no_object { SetOnNoObject }
    ensures set_over_functions { SetOverFunctions }
    ensures set_over_read_only { SetOverReadOnly }
    ensures set_without_setter { SetWithoutSetter }
    ensures set_on_closed { SetOnClosed }
{}

/// `[[Set]]` replaces in place, adds on the receiver, or calls the setter.
#[tactic(auto, unfolding(es_serve::specs::Serve::model, es_model::specs::Weights::renewed, es_model::specs::Changes::changed, es_model::specs::Changes::charged, es_model::specs::Changes::added, es_model::specs::Changes::replaced, es_model::specs::World::allows))]
pub fn set_puts()
    ensures set_replaces { SetReplaces }
    ensures set_adds { SetAdds }
    ensures set_calls_setter { SetCallsSetter }
{}

/// Own keys: indices ascending, then texts and then Symbols in order of creation.
#[tactic(auto, unfolding(es_serve::specs::Serve::model, es_model::specs::Weights::renewed, es_model::specs::OwnKeys::own_keys))]
pub fn keys_stand_in_order()
    ensures { KeysInOrder }
{}

/// `[[SetPrototypeOf]]` refuses cycles that it sees, closed objects and the immutable one.
#[tactic(auto, unfolding(es_serve::specs::Serve::model, es_model::specs::Weights::renewed, es_model::specs::Changes::changed, es_model::specs::Changes::charged, es_model::specs::Changes::with_proto))]
pub fn prototypes_are_set()
    ensures cycle_refused { CycleRefused }
    ensures cycle_through_proxy { CycleThroughProxy }
    ensures null_is_set { NullIsSet }
    ensures same_on_closed { SameOnClosed }
    ensures same_on_open { SameOnOpen }
    ensures other_on_closed { OtherOnClosed }
    ensures self_refused { SelfRefused }
    ensures cycle_halts { CycleHalts }
    ensures whole_chain_is_set { WholeChainIsSet }
    ensures immutable_refused { ImmutableRefused }
    ensures immutable_same { ImmutableSame }
{}

/// `[[Delete]]` of what is absent, configurable and not configurable.
#[tactic(auto, unfolding(es_serve::specs::Serve::model, es_model::specs::Weights::renewed, es_model::specs::Changes::changed, es_model::specs::Changes::removed, es_model::specs::World::deletes))]
pub fn delete_takes_out()
    ensures delete_absent { DeleteAbsent }
    ensures delete_open { DeleteOpen }
    ensures delete_fixed { DeleteFixed }
{}

/// `[[DefineOwnProperty]]` makes an event exactly where it changes something.
#[tactic(auto, unfolding(es_serve::specs::Serve::model, es_model::specs::Weights::renewed, es_model::specs::Changes::changed, es_model::specs::Changes::added, es_model::specs::Changes::replaced, es_model::specs::World::allows))]
pub fn define_notes_changes()
    ensures define_keeps { DefineKeeps }
    ensures define_keeps_fixed { DefineKeepsFixed }
    ensures define_over_fixed { DefineOverFixed }
    ensures define_hides { DefineHides }
    ensures define_adds { DefineAdds }
    ensures define_on_closed { DefineOnClosed }
    ensures define_nothing { DefineNothing }
    ensures define_adds_empty { DefineAddsEmpty }
    ensures define_getter { DefineGetter }
    ensures define_over_getter { DefineOverGetter }
    ensures define_no_getter { DefineNoGetter }
    ensures define_getter_over_fixed { DefineGetterOverFixed }
    ensures define_shows_fixed { DefineShowsFixed }
{}

/// An index that is put or taken out has an event of its own.
#[tactic(auto, unfolding(es_serve::specs::Serve::model, es_model::specs::Weights::renewed, es_model::specs::Changes::changed, es_model::specs::Changes::added, es_model::specs::Changes::removed, es_model::specs::World::allows, es_model::specs::World::deletes))]
pub fn indices_have_their_events()
    ensures index_is_put { IndexIsPut }
    ensures index_is_removed { IndexIsRemoved }
{}

/// `[[PreventExtensions]]` closes an object once.
#[tactic(auto, unfolding(es_serve::specs::Serve::model, es_model::specs::Weights::renewed, es_model::specs::Changes::changed, es_model::specs::Changes::closed))]
pub fn objects_are_closed()
    ensures prevent_closes { PreventCloses }
    ensures prevent_again { PreventAgain }
    ensures is_open { IsOpen }
    ensures is_closed { IsClosed }
{}

/// A call of no function, a construction by no constructor and a call too deep throw new errors.
#[tactic(auto, unfolding(es_serve::specs::Serve::model, es_model::specs::Weights::renewed, es_model::specs::Changes::changed, es_model::specs::Changes::charged, es_model::specs::Changes::added, es_model::specs::Changes::made, es_model::specs::Changes::text_known, es_model::specs::World::allows, es_model::specs::World::number_of))]
pub fn calls_throw()
    ensures call_of_undefined { CallOfUndefined }
    ensures call_of_object { CallOfObject }
    ensures construct_of_function { ConstructOfFunction }
    ensures call_enters { CallEnters }
    ensures call_is_the_last { CallIsTheLast }
    ensures call_too_deep { CallTooDeep }
    ensures call_halts { CallHalts }
    ensures call_of_proxy { CallOfProxy }
{}

/// A frame belongs where all that it keeps is there, each object with the kind that its algorithm has found, and nowhere else.
pub fn frames_belong()
    ensures set_belongs { SetBelongs }
    ensures no_receiver { NoReceiver }
    ensures no_key { NoKey }
    ensures proxy_belongs { ProxyBelongs }
    ensures plain_is_no_proxy { PlainIsNoProxy }
{}

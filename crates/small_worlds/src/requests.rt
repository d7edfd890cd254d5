//! Worked examples of requests: prototypes, own properties, receivers, keys of a String object, definitions over what is hidden, accesses of Arrays and Proxies, lines.

ghost use Rattle.small_worlds.specs.Requests.{AccessorIsFixed, AccessorIsGiven, GetterOverHidden, KeysOfText, LineHasTexts, LineIsEmpty, LineIsLast, OwnIsAccessor, OwnIsNotInherited, OwnIsStored, ProtoEntersProxy, ProtoIsNull, ProtoIsObject, ProtoIsProxy, ReadBySymbol, ReadMeetsProxy, ReadOfArray, ReadOfProxy, SetAbsentOnSymbol, SetOnNull, SetOnSymbol, SetOnText, SetOnTruth, SetOnUndefined, SetterOfSymbol, ValueOverHidden, WriteOfArray};

/// `[[GetPrototypeOf]]` gives the prototype as it is.
#[tactic(auto, unfolding(es_serve::specs::Serve::model, es_model::specs::Weights::renewed, es_model::specs::Changes::charged))]
pub fn prototypes_are_given()
    ensures proto_is_object { ProtoIsObject }
    ensures proto_is_null { ProtoIsNull }
    ensures proto_is_proxy { ProtoIsProxy }
    ensures proto_enters_proxy { ProtoEntersProxy }
{}

/// `[[GetOwnProperty]]` gives the whole property, and none of a prototype.
#[tactic(auto, unfolding(es_serve::specs::Serve::model, es_model::specs::Weights::renewed))]
pub fn own_properties_are_given()
    ensures own_is_stored { OwnIsStored }
    ensures own_is_accessor { OwnIsAccessor }
    ensures own_is_not_inherited { OwnIsNotInherited }
{}

/// `[[Set]]` puts nothing on a primitive, and calls a setter for it.
#[tactic(auto, unfolding(es_serve::specs::Serve::model, es_model::specs::Weights::renewed))]
pub fn primitives_take_nothing()
    ensures set_on_undefined { SetOnUndefined }
    ensures set_on_null { SetOnNull }
    ensures set_on_truth { SetOnTruth }
    ensures set_on_text { SetOnText }
    ensures set_on_symbol { SetOnSymbol }
    ensures set_absent_on_symbol { SetAbsentOnSymbol }
    ensures setter_of_symbol { SetterOfSymbol }
{}

/// The keys of a String object have the indices of its code units, each once.
#[tactic(auto, unfolding(es_serve::specs::Serve::model, es_model::specs::Weights::renewed, es_model::specs::OwnKeys::own_keys))]
pub fn code_units_have_keys()
    ensures { KeysOfText }
{}

/// `[[DefineOwnProperty]]` keeps enumerable and configurable where the kind changes.
#[tactic(auto, unfolding(es_serve::specs::Serve::model, es_model::specs::Weights::renewed, es_model::specs::Changes::changed, es_model::specs::Changes::replaced, es_model::specs::World::allows))]
pub fn hidden_ones_stay_hidden()
    ensures getter_over_hidden { GetterOverHidden }
    ensures value_over_hidden { ValueOverHidden }
    ensures accessor_is_fixed { AccessorIsFixed }
    ensures accessor_is_given { AccessorIsGiven }
{}

/// An access says whether its object is an Array, and where its walk ends.
#[tactic(auto, unfolding(es_serve::specs::Serve::model, es_model::specs::Weights::renewed, es_model::specs::Changes::changed, es_model::specs::Changes::charged, es_model::specs::Changes::access_noted, es_model::specs::Changes::added, es_model::specs::World::allows))]
pub fn walks_are_noted()
    ensures read_of_array { ReadOfArray }
    ensures write_of_array { WriteOfArray }
    ensures read_meets_proxy { ReadMeetsProxy }
    ensures read_of_proxy { ReadOfProxy }
    ensures read_by_symbol { ReadBySymbol }
{}

/// A line has its texts in UTF-8, a space between two and a line feed at its end, behind what was printed.
#[tactic(auto, unfolding(es_serve::specs::Serve::model, es_serve::specs::Lines::line_bytes, es_model::specs::Weights::renewed, es_model::specs::Changes::printed_more))]
pub fn lines_are_printed()
    ensures line_has_texts { LineHasTexts }
    ensures line_is_empty { LineIsEmpty }
    ensures line_is_last { LineIsLast }
{}

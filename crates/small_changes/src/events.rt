//! Worked examples of events.

ghost use Rattle.small_changes.specs.Noted.{AboveSmall, AccessorConfigurableAlone, AccessorEnumerableAlone, ArrayIsAccessed, ArrayIsWritten, BelowSmall, ConfigurableAlone, EnumerableAlone, FoundBeforeProxy, GetterAlone, GetterBecomesValue, GetterIsAdded, GetterWithFlag, GreatestNumber, GreatestSmall, IndexGetter, IndexIsPut, IndexIsRemoved, IndexNotConfigurable, IndexNotEnumerable, IndexNotWritable, LeastSmall, NoGetterAlone, NullAlone, NullIsReached, NumberAlone, ObjectAlone, ObjectIsReference, OwnIsAccessed, ProxyIsMet, SameValue, SetterAlone, SymbolIsAdded, SymbolIsDeleted, SymbolIsGivenFunctions, SymbolIsStored, TextIsDeleted, UnderArray, ValueAlone, ValueBecomesGetter, ValueIsAdded, ValueWithFlag, WritableAlone};

/// The class of a value at the edges of the small numbers.
pub fn values_have_classes()
    ensures greatest_small { GreatestSmall }
    ensures above_small { AboveSmall }
    ensures least_small { LeastSmall }
    ensures below_small { BelowSmall }
    ensures greatest_number { GreatestNumber }
    ensures object_is_reference { ObjectIsReference }
{}

/// Another value alone, each flag alone, and both.
#[tactic(auto, unfolding(es_model::specs::Changes::changed, es_model::specs::Changes::replaced))]
pub fn values_are_told()
    ensures value_alone { ValueAlone }
    ensures null_alone { NullAlone }
    ensures object_alone { ObjectAlone }
    ensures number_alone { NumberAlone }
    ensures writable_alone { WritableAlone }
    ensures enumerable_alone { EnumerableAlone }
    ensures configurable_alone { ConfigurableAlone }
    ensures value_with_flag { ValueWithFlag }
    ensures same_value { SameValue }
{}

/// Another kind, both ways.
#[tactic(auto, unfolding(es_model::specs::Changes::changed, es_model::specs::Changes::replaced))]
pub fn kinds_are_told()
    ensures value_becomes_getter { ValueBecomesGetter }
    ensures getter_becomes_value { GetterBecomesValue }
{}

/// Accessor functions alone, and each flag of an accessor.
#[tactic(auto, unfolding(es_model::specs::Changes::changed, es_model::specs::Changes::replaced))]
pub fn functions_are_told()
    ensures getter_alone { GetterAlone }
    ensures setter_alone { SetterAlone }
    ensures no_getter_alone { NoGetterAlone }
    ensures accessor_enumerable_alone { AccessorEnumerableAlone }
    ensures accessor_configurable_alone { AccessorConfigurableAlone }
    ensures getter_with_flag { GetterWithFlag }
{}

/// Properties that come and go, under texts and Symbols.
#[tactic(auto, unfolding(es_model::specs::Changes::changed, es_model::specs::Changes::added, es_model::specs::Changes::replaced, es_model::specs::Changes::removed))]
pub fn keys_are_told()
    ensures value_is_added { ValueIsAdded }
    ensures getter_is_added { GetterIsAdded }
    ensures text_is_deleted { TextIsDeleted }
    ensures symbol_is_added { SymbolIsAdded }
    ensures symbol_is_stored { SymbolIsStored }
    ensures symbol_is_given_functions { SymbolIsGivenFunctions }
    ensures symbol_is_deleted { SymbolIsDeleted }
{}

/// Indices, and whether their properties have three true flags.
#[tactic(auto, unfolding(es_model::specs::Changes::changed, es_model::specs::Changes::replaced, es_model::specs::Changes::removed))]
pub fn indices_are_told()
    ensures index_is_put { IndexIsPut }
    ensures index_not_writable { IndexNotWritable }
    ensures index_not_enumerable { IndexNotEnumerable }
    ensures index_not_configurable { IndexNotConfigurable }
    ensures index_getter { IndexGetter }
    ensures index_is_removed { IndexIsRemoved }
{}

/// Accesses at a site: Arrays, and walks to a property, to null and to a Proxy.
#[tactic(auto, unfolding(es_model::specs::Changes::changed, es_model::specs::Changes::access_noted))]
pub fn accesses_are_told()
    ensures own_is_accessed { OwnIsAccessed }
    ensures array_is_accessed { ArrayIsAccessed }
    ensures under_array { UnderArray }
    ensures null_is_reached { NullIsReached }
    ensures proxy_is_met { ProxyIsMet }
    ensures found_before_proxy { FoundBeforeProxy }
    ensures array_is_written { ArrayIsWritten }
{}

//! Worked examples of the changes: the whole world after each.

ghost use Rattle.small_changes.specs.Changed.{CellIsMade, CellIsSet, CellsAreRead, ConstructionIsTold, DefineAdds, DefineOnShut, DefineRefused, DeleteAbsent, DeleteFixed, DeleteHidden, DescriptionsAreRead, EmptyCellIsMade, EmptyCellIsSet, InternKnown, InternNew, MakeProxy, MakeUnder, MakeUnderNull, MakeUnderProxy, NoCellIsSet, NowhereHasNone, NowhereIsShut, PreventOpen, PreventShut, ProtoIsSet, ProtoOfProxy, ProtoSame, RevokeOther, RevokeProxy, StoreAbsent, StoreInFixed, StoreInGetter, StoreKeepsFlags, StoreNowhere, StoreSame, SymbolIsMade, SymbolsAreTwo, TextHasKeys, TextsHaveNumbers, UnmapAbsent, UnmapIndex, UnmapOther};

/// Another value in a stored property keeps the flags and the place.
#[tactic(auto, unfolding(es_model::specs::Changes::changed, es_model::specs::Changes::replaced))]
pub fn values_are_stored()
    ensures store_keeps_flags { StoreKeepsFlags }
    ensures store_in_fixed { StoreInFixed }
    ensures store_same { StoreSame }
    ensures store_in_getter { StoreInGetter }
    ensures store_absent { StoreAbsent }
    ensures store_nowhere { StoreNowhere }
{}

/// A property is taken out or defined, or nothing happens.
#[tactic(auto, unfolding(es_model::specs::Changes::changed, es_model::specs::Changes::added, es_model::specs::Changes::removed))]
pub fn properties_come_and_go()
    ensures delete_hidden { DeleteHidden }
    ensures delete_fixed { DeleteFixed }
    ensures delete_absent { DeleteAbsent }
    ensures define_adds { DefineAdds }
    ensures define_on_shut { DefineOnShut }
    ensures define_refused { DefineRefused }
{}

/// The prototype of an object, and whether it is extensible.
#[tactic(auto, unfolding(es_model::specs::Changes::changed, es_model::specs::Changes::with_proto, es_model::specs::Changes::closed))]
pub fn objects_change()
    ensures proto_is_set { ProtoIsSet }
    ensures proto_same { ProtoSame }
    ensures proto_of_proxy { ProtoOfProxy }
    ensures prevent_open { PreventOpen }
    ensures prevent_shut { PreventShut }
{}

/// A new object stands last. A Proxy has no events.
#[tactic(auto, unfolding(es_model::specs::Changes::changed, es_model::specs::Changes::made))]
pub fn objects_are_made()
    ensures make_under { MakeUnder }
    ensures make_under_null { MakeUnderNull }
    ensures make_under_proxy { MakeUnderProxy }
    ensures make_proxy { MakeProxy }
{}

/// A Proxy is revoked, and an index of an arguments object shares no cell any more.
#[tactic(auto, unfolding(es_model::specs::Changes::changed, es_model::specs::Changes::with_kind))]
pub fn slots_are_emptied()
    ensures revoke_proxy { RevokeProxy }
    ensures revoke_other { RevokeOther }
    ensures unmap_index { UnmapIndex }
    ensures unmap_absent { UnmapAbsent }
    ensures unmap_other { UnmapOther }
{}

/// Texts, Symbols and cells.
#[tactic(auto, unfolding(es_model::specs::Changes::changed, es_model::specs::Changes::text_known, es_model::specs::Changes::symbol_made, es_model::specs::Changes::cell_made))]
pub fn lists_grow()
    ensures intern_new { InternNew }
    ensures intern_known { InternKnown }
    ensures symbol_is_made { SymbolIsMade }
    ensures symbols_are_two { SymbolsAreTwo }
    ensures cell_is_made { CellIsMade }
    ensures empty_cell_is_made { EmptyCellIsMade }
{}

/// A cell gets a value where it is there.
#[tactic(auto, unfolding(es_model::specs::Changes::changed, es_model::specs::Changes::cell_set))]
pub fn cells_are_set()
    ensures empty_cell_is_set { EmptyCellIsSet }
    ensures cell_is_set { CellIsSet }
    ensures no_cell_is_set { NoCellIsSet }
{}

/// What is read of cells, Symbols, texts and objects, also where none is.
#[tactic(auto, unfolding(es_model::specs::World::number_of, es_model::specs::OwnKeys::own_keys))]
pub fn lists_are_read()
    ensures cells_are_read { CellsAreRead }
    ensures descriptions_are_read { DescriptionsAreRead }
    ensures texts_have_numbers { TextsHaveNumbers }
    ensures nowhere_is_shut { NowhereIsShut }
    ensures nowhere_has_none { NowhereHasNone }
    ensures text_has_keys { TextHasKeys }
{}

/// The end of a construction is an event alone.
#[tactic(auto, unfolding(es_model::specs::Changes::changed, es_model::specs::Changes::construction_noted))]
pub fn constructions_are_told()
    ensures { ConstructionIsTold }
{}

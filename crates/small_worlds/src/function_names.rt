//! Worked examples of the names of functions.

ghost use Rattle.small_worlds.specs.FunctionNames.{AssignmentNames, BareSymbolNames, BareSymbolSetterIsNamed, BindingNames, GetterIsNamed, MethodIsNamed, NamelessIsEmpty, PropertyNames, SetterIsNamed, SymbolGetterIsNamed, SymbolNames, WrittenNameIsGiven, WrittenNameStays, WrittenNameStaysInLiteral};

/// Function expressions: the name that is written, that of a binding or of an assignment, or the empty text.
#[tactic(auto, unfolding(es_model::specs::Changes::changed, es_model::specs::Changes::charged, es_model::specs::Changes::printed_more, es_model::specs::Changes::added, es_model::specs::Changes::made, es_model::specs::Changes::text_known, es_model::specs::Changes::cell_made, es_model::specs::Changes::cell_set, es_model::specs::World::allows, es_model::specs::World::number_of, function_objects::specs::Making::parameter_count))]
pub fn places_name()
    ensures nameless_is_empty { NamelessIsEmpty }
    ensures written_name_is_given { WrittenNameIsGiven }
    ensures binding_names { BindingNames }
    ensures written_name_stays { WrittenNameStays }
    ensures assignment_names { AssignmentNames }
{}

/// Property definitions: values, methods and accessors get the text of their key.
#[tactic(auto, unfolding(es_model::specs::Changes::changed, es_model::specs::Changes::charged, es_model::specs::Changes::printed_more, es_model::specs::Changes::added, es_model::specs::Changes::made, es_model::specs::Changes::text_known, es_model::specs::Changes::cell_made, es_model::specs::Changes::cell_set, es_model::specs::World::allows, es_model::specs::World::number_of, function_objects::specs::Making::parameter_count))]
pub fn definitions_name()
    ensures property_names { PropertyNames }
    ensures method_is_named { MethodIsNamed }
    ensures getter_is_named { GetterIsNamed }
    ensures setter_is_named { SetterIsNamed }
    ensures written_name_stays_in_literal { WrittenNameStaysInLiteral }
    ensures symbol_names { SymbolNames }
    ensures bare_symbol_names { BareSymbolNames }
    ensures symbol_getter_is_named { SymbolGetterIsNamed }
    ensures bare_symbol_setter_is_named { BareSymbolSetterIsNamed }
{}

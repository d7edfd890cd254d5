//! Worked examples of the built-in functions.

ghost use Rattle.small_worlds.specs.Builtins.{ApplyOfNoFunction, ApplyToList, ApplyToNull, BooleanConstructed, BooleanOfEmptyText, BooleanOfNothing, BooleanOfText, BothAreConverted, BothAreUndefined, CallHandsReceiver, CallOfNoFunction, CallPassesThrow, CallTakesRest, CallWithoutArguments, CauseIsNotThere, CauseIsUndefined, DescriptionOfBareSymbol, DescriptionOfNoSymbol, DescriptionOfSymbol, ErrorOfItsClass, ErrorWithMessage, ErrorWithoutMessage, FunctionIsNotConstructed, FunctionIsNotMade, HasInstance, HexOfNumber, MessageIsConverted, MessageIsEmpty, MessageThrows, NameAndMessage, NameIsEmpty, NameThrows, NegativeInGreatestRadix, NoRadix, NumberConstructed, NumberOfNoNumber, NumberOfNothing, NumberOfNumber, NumberOfObject, NumberOfText, NumberThrows, OptionsAreNoObject, PrimitiveOfSymbol, PrototypeThrows, RadixIsConverted, RadixTooGreat, RadixTooSmall, SymbolIsNotConstructed, SymbolOfNumber, SymbolOfObject, SymbolOfText, SymbolOfUndefined, SymbolWithoutDescription, TextOfBareSymbol, TextOfNoNumber, TextOfNoObject, TextOfNoSymbol, TextOfNoTruth, TextOfSymbol, TextOfTruth, TruthOfNoTruth, TruthOfTruth, ZeroInRadix};

/// Function, and what its prototype calls.
#[tactic(auto, unfolding(es_model::specs::Changes::changed, es_model::specs::Changes::charged, es_model::specs::Changes::added, es_model::specs::Changes::made, es_model::specs::Changes::text_known, es_model::specs::Changes::symbol_made, es_model::specs::World::allows, es_model::specs::World::number_of, core_builtins::specs::Constructed::create_wrapper, core_builtins::specs::Radices::radix_digits))]
pub fn functions_are_called()
    ensures function_is_not_made { FunctionIsNotMade }
    ensures function_is_not_constructed { FunctionIsNotConstructed }
    ensures call_without_arguments { CallWithoutArguments }
    ensures call_hands_receiver { CallHandsReceiver }
    ensures call_takes_rest { CallTakesRest }
    ensures call_of_no_function { CallOfNoFunction }
    ensures call_passes_throw { CallPassesThrow }
    ensures apply_to_null { ApplyToNull }
    ensures apply_to_list { ApplyToList }
    ensures apply_of_no_function { ApplyOfNoFunction }
    ensures has_instance { HasInstance }
{}

/// Boolean in a call and in a construction, and of what its prototype takes the truth value.
#[tactic(auto, unfolding(es_model::specs::Changes::changed, es_model::specs::Changes::charged, es_model::specs::Changes::added, es_model::specs::Changes::made, es_model::specs::Changes::text_known, es_model::specs::Changes::symbol_made, es_model::specs::World::allows, es_model::specs::World::number_of, core_builtins::specs::Constructed::create_wrapper, core_builtins::specs::Radices::radix_digits))]
pub fn truth_values_are_given()
    ensures boolean_of_text { BooleanOfText }
    ensures boolean_of_empty_text { BooleanOfEmptyText }
    ensures boolean_of_nothing { BooleanOfNothing }
    ensures boolean_constructed { BooleanConstructed }
    ensures text_of_truth { TextOfTruth }
    ensures text_of_no_truth { TextOfNoTruth }
    ensures truth_of_truth { TruthOfTruth }
    ensures truth_of_no_truth { TruthOfNoTruth }
{}

/// Symbol, and of what its prototype takes the Symbol.
#[tactic(auto, unfolding(es_model::specs::Changes::changed, es_model::specs::Changes::charged, es_model::specs::Changes::added, es_model::specs::Changes::made, es_model::specs::Changes::text_known, es_model::specs::Changes::symbol_made, es_model::specs::World::allows, es_model::specs::World::number_of, core_builtins::specs::Constructed::create_wrapper, core_builtins::specs::Radices::radix_digits))]
pub fn symbols_are_made()
    ensures symbol_without_description { SymbolWithoutDescription }
    ensures symbol_of_undefined { SymbolOfUndefined }
    ensures symbol_of_text { SymbolOfText }
    ensures symbol_of_number { SymbolOfNumber }
    ensures symbol_is_not_constructed { SymbolIsNotConstructed }
    ensures text_of_bare_symbol { TextOfBareSymbol }
    ensures text_of_symbol { TextOfSymbol }
    ensures text_of_no_symbol { TextOfNoSymbol }
    ensures description_of_symbol { DescriptionOfSymbol }
    ensures description_of_bare_symbol { DescriptionOfBareSymbol }
    ensures description_of_no_symbol { DescriptionOfNoSymbol }
    ensures symbol_of_object { SymbolOfObject }
    ensures primitive_of_symbol { PrimitiveOfSymbol }
{}

/// The constructors of errors, and each branch of toString.
#[tactic(auto, unfolding(es_model::specs::Changes::changed, es_model::specs::Changes::charged, es_model::specs::Changes::added, es_model::specs::Changes::made, es_model::specs::Changes::text_known, es_model::specs::Changes::symbol_made, es_model::specs::World::allows, es_model::specs::World::number_of, core_builtins::specs::Constructed::create_wrapper, core_builtins::specs::Radices::radix_digits))]
pub fn errors_are_made()
    ensures error_without_message { ErrorWithoutMessage }
    ensures error_of_its_class { ErrorOfItsClass }
    ensures error_with_message { ErrorWithMessage }
    ensures message_is_converted { MessageIsConverted }
    ensures message_throws { MessageThrows }
    ensures cause_is_undefined { CauseIsUndefined }
    ensures cause_is_not_there { CauseIsNotThere }
    ensures options_are_no_object { OptionsAreNoObject }
    ensures prototype_throws { PrototypeThrows }
    ensures name_and_message { NameAndMessage }
    ensures name_is_empty { NameIsEmpty }
    ensures message_is_empty { MessageIsEmpty }
    ensures both_are_undefined { BothAreUndefined }
    ensures both_are_converted { BothAreConverted }
    ensures text_of_no_object { TextOfNoObject }
    ensures name_throws { NameThrows }
{}

/// Number in a call and in a construction, and numbers in a radix.
#[tactic(auto, unfolding(es_model::specs::Changes::changed, es_model::specs::Changes::charged, es_model::specs::Changes::added, es_model::specs::Changes::made, es_model::specs::Changes::text_known, es_model::specs::Changes::symbol_made, es_model::specs::World::allows, es_model::specs::World::number_of, core_builtins::specs::Constructed::create_wrapper, core_builtins::specs::Radices::radix_digits))]
pub fn numbers_are_written()
    ensures number_of_nothing { NumberOfNothing }
    ensures number_of_number { NumberOfNumber }
    ensures number_of_text { NumberOfText }
    ensures number_constructed { NumberConstructed }
    ensures number_throws { NumberThrows }
    ensures hex_of_number { HexOfNumber }
    ensures negative_in_greatest_radix { NegativeInGreatestRadix }
    ensures radix_is_converted { RadixIsConverted }
    ensures no_radix { NoRadix }
    ensures zero_in_radix { ZeroInRadix }
    ensures radix_too_great { RadixTooGreat }
    ensures radix_too_small { RadixTooSmall }
    ensures text_of_no_number { TextOfNoNumber }
    ensures number_of_object { NumberOfObject }
    ensures number_of_no_number { NumberOfNoNumber }
{}

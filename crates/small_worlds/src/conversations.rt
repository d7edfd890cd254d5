//! Worked examples of the abstract operations.

ghost use Rattle.small_worlds.specs.Conversations.{DefaultPassesOverObject, DefaultThrows, DefaultTriesValueOf, EnumerableIsFirst, FirstIsFirst, GetIsNoFunction, HaltsAtSecond, HandlerDecides, HintOfDefault, HintOfNumber, HintOfText, InstanceHalts, IsInstance, IsNoInstance, KeyOfIndex, KeyOfNull, KeyOfObject, KeyOfOne, KeyOfSymbol, KeyOfText, KeyOfTruth, KeyOfUndefined, KeyOfZeros, KeysAreKeys, LeftIsFirst, LengthIsConverted, ListHalts, ListKeepsLength, ListOfTwo, MixedThrows, NegativeLength, NoFunctionIsPassedOver, NoLength, NoMethodThrows, NoNumberIsLess, NoNumberThrows, NothingIsLess, NullIsNoObject, NullIsNoZero, NullIsUndefined, NullStays, NumberOfBinary, NumberOfNothing, NumberOfNull, NumberOfNumber, NumberOfObject, NumberOfPlus, NumberOfSignedHex, NumberOfSymbol, NumberOfTruth, NumberOfUndefined, NumberOfZeros, NumbersInOrder, NumberStays, NumberTooGreat, NumberTriesValueOf, ObjectIsItself, ObjectIsNotNull, ObjectIsPassedOver, ObjectIsText, OwnMethodGivesObject, OwnMethodNoFunction, OwnMethodThrows, PrimitiveIsNoInstance, PrimitiveStays, PrintGivesUndefined, PrintThrows, PrototypeIsNoObject, RightIsFirst, SymbolIsNoText, SymbolIsObject, SymbolStays, TargetIsNoFunction, TargetIsNoObject, TextIsNumber, TextOfNull, TextOfNumber, TextOfObject, TextOfSymbol, TextOfText, TextOfTruth, TextOfUndefined, TextPassesOverNoFunction, TextsInOrder, TextThrows, TextTriesToString, ThrowIsPassedOn, TruthIsText, TruthStays, TwoObjectsThrow, UndefinedIsNoObject, UndefinedStays, UnsignedOfNegative, UnsignedOfText, ValueIsThird, WantedIsNoObject, WrapsNumber, WrapsSymbol, WrapsText, WrapsTruth};

/// ToPrimitive with each hint: which method is tried, what it is told, and what it may give.
#[tactic(auto, unfolding(es_model::specs::Changes::changed, es_model::specs::Changes::charged, es_model::specs::Changes::added, es_model::specs::Changes::made, es_model::specs::Changes::text_known, es_model::specs::World::allows, es_model::specs::World::number_of))]
pub fn primitives_are_converted()
    ensures primitive_stays { PrimitiveStays }
    ensures symbol_stays { SymbolStays }
    ensures undefined_stays { UndefinedStays }
    ensures null_stays { NullStays }
    ensures truth_stays { TruthStays }
    ensures number_stays { NumberStays }
    ensures number_tries_value_of { NumberTriesValueOf }
    ensures default_tries_value_of { DefaultTriesValueOf }
    ensures text_tries_to_string { TextTriesToString }
    ensures object_is_passed_over { ObjectIsPassedOver }
    ensures default_passes_over_object { DefaultPassesOverObject }
    ensures two_objects_throw { TwoObjectsThrow }
    ensures no_function_is_passed_over { NoFunctionIsPassedOver }
    ensures text_passes_over_no_function { TextPassesOverNoFunction }
    ensures no_method_throws { NoMethodThrows }
    ensures throw_is_passed_on { ThrowIsPassedOn }
    ensures default_throws { DefaultThrows }
    ensures text_throws { TextThrows }
    ensures halts_at_second { HaltsAtSecond }
    ensures hint_of_text { HintOfText }
    ensures hint_of_number { HintOfNumber }
    ensures hint_of_default { HintOfDefault }
    ensures own_method_gives_object { OwnMethodGivesObject }
    ensures own_method_no_function { OwnMethodNoFunction }
    ensures own_method_throws { OwnMethodThrows }
{}

/// ToString of each kind of value.
#[tactic(auto, unfolding(es_model::specs::Changes::changed, es_model::specs::Changes::charged, es_model::specs::Changes::added, es_model::specs::Changes::made, es_model::specs::Changes::text_known, es_model::specs::World::allows, es_model::specs::World::number_of))]
pub fn texts_are_made()
    ensures text_of_undefined { TextOfUndefined }
    ensures text_of_null { TextOfNull }
    ensures text_of_truth { TextOfTruth }
    ensures text_of_number { TextOfNumber }
    ensures text_of_text { TextOfText }
    ensures text_of_symbol { TextOfSymbol }
    ensures text_of_object { TextOfObject }
{}

/// ToNumber of each kind of value, and ToUint32.
#[tactic(auto, unfolding(es_model::specs::Changes::changed, es_model::specs::Changes::charged, es_model::specs::Changes::added, es_model::specs::Changes::made, es_model::specs::Changes::text_known, es_model::specs::World::allows, es_model::specs::World::number_of))]
pub fn numbers_are_read()
    ensures number_of_undefined { NumberOfUndefined }
    ensures number_of_null { NumberOfNull }
    ensures number_of_truth { NumberOfTruth }
    ensures number_of_number { NumberOfNumber }
    ensures number_of_object { NumberOfObject }
    ensures number_of_symbol { NumberOfSymbol }
    ensures number_of_signed_hex { NumberOfSignedHex }
    ensures number_of_binary { NumberOfBinary }
    ensures number_of_plus { NumberOfPlus }
    ensures number_of_zeros { NumberOfZeros }
    ensures number_of_nothing { NumberOfNothing }
    ensures number_too_great { NumberTooGreat }
    ensures unsigned_of_negative { UnsignedOfNegative }
    ensures unsigned_of_text { UnsignedOfText }
{}

/// ToPropertyKey of each kind of value.
#[tactic(auto, unfolding(es_model::specs::Changes::changed, es_model::specs::Changes::charged, es_model::specs::Changes::added, es_model::specs::Changes::made, es_model::specs::Changes::text_known, es_model::specs::World::allows, es_model::specs::World::number_of))]
pub fn keys_are_made()
    ensures key_of_index { KeyOfIndex }
    ensures key_of_symbol { KeyOfSymbol }
    ensures key_of_text { KeyOfText }
    ensures key_of_one { KeyOfOne }
    ensures key_of_zeros { KeyOfZeros }
    ensures key_of_undefined { KeyOfUndefined }
    ensures key_of_null { KeyOfNull }
    ensures key_of_truth { KeyOfTruth }
    ensures key_of_object { KeyOfObject }
{}

/// IsLooselyEqual of values of two types.
#[tactic(auto, unfolding(es_model::specs::Changes::changed, es_model::specs::Changes::charged, es_model::specs::Changes::added, es_model::specs::Changes::made, es_model::specs::Changes::text_known, es_model::specs::World::allows, es_model::specs::World::number_of))]
pub fn values_are_compared()
    ensures null_is_undefined { NullIsUndefined }
    ensures null_is_no_zero { NullIsNoZero }
    ensures text_is_number { TextIsNumber }
    ensures no_number_throws { NoNumberThrows }
    ensures truth_is_text { TruthIsText }
    ensures object_is_text { ObjectIsText }
    ensures symbol_is_object { SymbolIsObject }
    ensures symbol_is_no_text { SymbolIsNoText }
    ensures object_is_not_null { ObjectIsNotNull }
{}

/// IsLessThan of texts and numbers, and which operand is converted first.
#[tactic(auto, unfolding(es_model::specs::Changes::changed, es_model::specs::Changes::charged, es_model::specs::Changes::added, es_model::specs::Changes::made, es_model::specs::Changes::text_known, es_model::specs::World::allows, es_model::specs::World::number_of))]
pub fn values_are_ordered()
    ensures texts_in_order { TextsInOrder }
    ensures nothing_is_less { NothingIsLess }
    ensures numbers_in_order { NumbersInOrder }
    ensures no_number_is_less { NoNumberIsLess }
    ensures left_is_first { LeftIsFirst }
    ensures right_is_first { RightIsFirst }
{}

/// InstanceofOperator: the method, the walk and its turns.
#[tactic(auto, unfolding(es_model::specs::Changes::changed, es_model::specs::Changes::charged, es_model::specs::Changes::added, es_model::specs::Changes::made, es_model::specs::Changes::text_known, es_model::specs::World::allows, es_model::specs::World::number_of))]
pub fn instances_are_found()
    ensures is_instance { IsInstance }
    ensures is_no_instance { IsNoInstance }
    ensures instance_halts { InstanceHalts }
    ensures primitive_is_no_instance { PrimitiveIsNoInstance }
    ensures prototype_is_no_object { PrototypeIsNoObject }
    ensures target_is_no_object { TargetIsNoObject }
    ensures target_is_no_function { TargetIsNoFunction }
    ensures handler_decides { HandlerDecides }
{}

/// ToPropertyDescriptor: the order of the fields, and its errors.
#[tactic(auto, unfolding(es_model::specs::Changes::changed, es_model::specs::Changes::charged, es_model::specs::Changes::added, es_model::specs::Changes::made, es_model::specs::Changes::text_known, es_model::specs::World::allows, es_model::specs::World::number_of))]
pub fn descriptors_are_read()
    ensures get_is_no_function { GetIsNoFunction }
    ensures mixed_throws { MixedThrows }
    ensures enumerable_is_first { EnumerableIsFirst }
    ensures value_is_third { ValueIsThird }
    ensures wanted_is_no_object { WantedIsNoObject }
{}

/// CreateListFromArrayLike: its length, its turns, its keys.
#[tactic(auto, unfolding(es_model::specs::Changes::changed, es_model::specs::Changes::charged, es_model::specs::Changes::added, es_model::specs::Changes::made, es_model::specs::Changes::text_known, es_model::specs::World::allows, es_model::specs::World::number_of))]
pub fn lists_are_made()
    ensures list_of_two { ListOfTwo }
    ensures length_is_converted { LengthIsConverted }
    ensures no_length { NoLength }
    ensures negative_length { NegativeLength }
    ensures list_keeps_length { ListKeepsLength }
    ensures list_halts { ListHalts }
    ensures keys_are_keys { KeysAreKeys }
{}

/// A line is made of texts from left to right.
#[tactic(auto, unfolding(es_model::specs::Changes::changed, es_model::specs::Changes::charged, es_model::specs::Changes::added, es_model::specs::Changes::made, es_model::specs::Changes::text_known, es_model::specs::World::allows, es_model::specs::World::number_of))]
pub fn lines_are_asked_for()
    ensures print_gives_undefined { PrintGivesUndefined }
    ensures first_is_first { FirstIsFirst }
    ensures print_throws { PrintThrows }
{}

/// ToObject of each kind of value.
#[tactic(auto, unfolding(es_model::specs::Changes::changed, es_model::specs::Changes::charged, es_model::specs::Changes::added, es_model::specs::Changes::made, es_model::specs::Changes::text_known, es_model::specs::World::allows, es_model::specs::World::number_of))]
pub fn objects_are_wrapped()
    ensures wraps_number { WrapsNumber }
    ensures wraps_truth { WrapsTruth }
    ensures wraps_symbol { WrapsSymbol }
    ensures wraps_text { WrapsText }
    ensures object_is_itself { ObjectIsItself }
    ensures undefined_is_no_object { UndefinedIsNoObject }
    ensures null_is_no_object { NullIsNoObject }
{}

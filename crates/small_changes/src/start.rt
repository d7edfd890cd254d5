//! Worked examples of the world in which a run begins: each object, text and Symbol.

ghost use Rattle.small_changes.specs.Start.{AllRows, AllSymbols, AllTexts, ArrayObjects, BooleanObjects, ErrorObjects, FunctionObjects, GlobalObject, NoMoreObjects, NoMoreRows, NothingHasRun, MethodOfErrors, MethodsOfFunctions, MethodsOfNumbersAndBooleans, MethodsOfSymbols, NumberObjects, ObjectObjects, PrintFunction, ProxyObject, RangeErrorObjects, ReferenceErrorObjects, ReflectObject, StringObjects, SymbolObjects, SyntaxErrorObjects, ThrowTypeErrorObject, TypeErrorObjects};

/// The global object.
pub fn the_global_object_is_so()
    ensures { GlobalObject }
{}

/// Constructors with their prototype objects.
pub fn constructors_are_so()
    ensures object_objects { ObjectObjects }
    ensures function_objects { FunctionObjects }
    ensures array_objects { ArrayObjects }
    ensures string_objects { StringObjects }
    ensures number_objects { NumberObjects }
    ensures boolean_objects { BooleanObjects }
    ensures symbol_objects { SymbolObjects }
{}

/// The constructors of errors with their prototype objects.
pub fn errors_are_so()
    ensures error_objects { ErrorObjects }
    ensures type_error_objects { TypeErrorObjects }
    ensures range_error_objects { RangeErrorObjects }
    ensures reference_error_objects { ReferenceErrorObjects }
    ensures syntax_error_objects { SyntaxErrorObjects }
{}

/// The objects that have no prototype object, and no others.
pub fn other_objects_are_so()
    ensures proxy_object { ProxyObject }
    ensures throw_type_error_object { ThrowTypeErrorObject }
    ensures reflect_object { ReflectObject }
    ensures print_function { PrintFunction }
    ensures no_more_objects { NoMoreObjects }
{}

/// The methods of prototype objects.
pub fn methods_are_so()
    ensures methods_of_functions { MethodsOfFunctions }
    ensures methods_of_numbers_and_booleans { MethodsOfNumbersAndBooleans }
    ensures methods_of_symbols { MethodsOfSymbols }
    ensures method_of_errors { MethodOfErrors }
{}

/// Texts and Symbols.
pub fn texts_and_symbols_are_so()
    ensures all_texts { AllTexts }
    ensures all_symbols { AllSymbols }
{}

/// What has not happened yet, and the rows of the functions.
pub fn nothing_has_run()
    ensures nothing_has_run { NothingHasRun }
    ensures all_rows { AllRows }
    ensures no_more_rows { NoMoreRows }
{}

//! First faults of the static rules, and sources near to them that have none. Each function here only names tables of `specs/`.

ghost use Rattle.std.specs.List.{AllByRecursion};
ghost use Rattle.small_sources.specs.Rows.{HasFault};
ghost use Rattle.small_sources.specs.Misplacements.{break_in_function_rows, break_rows, delete_rows, return_rows, stray_break_rows, stray_return_rows};
ghost use Rattle.small_sources.specs.Duplicates.{block_name_rows, catch_name_rows, function_name_rows, prototype_rows, script_name_rows};
ghost use Rattle.small_sources.specs.Captures.{function_local_rows, local_name_rows, use_rows};
ghost use Rattle.small_sources.specs.BadBindings.{bound_name_rows, written_name_rows};
ghost use Rattle.small_sources.specs.Parts.{expression_part_rows, function_part_rows, statement_part_rows};
ghost use Rattle.small_sources.specs.Bindings.{function_binding_rows, scope_rows, script_binding_rows, IsBound, IsScope};
ghost use Rattle.small_sources.specs.FaultOrder.{order_rows, phase_rows};

/// `break`, `continue`, `return` and `delete`.
pub fn words_are_misplaced()
    ensures breaks { AllByRecursion HasFault break_rows }
    ensures stray_breaks { AllByRecursion HasFault stray_break_rows }
    ensures breaks_in_functions { AllByRecursion HasFault break_in_function_rows }
    ensures returns { AllByRecursion HasFault return_rows }
    ensures stray_returns { AllByRecursion HasFault stray_return_rows }
    ensures deletions { AllByRecursion HasFault delete_rows }
{}

/// Names that are bound twice in one scope, and `__proto__`.
pub fn names_are_bound_once()
    ensures in_scripts { AllByRecursion HasFault script_name_rows }
    ensures in_blocks { AllByRecursion HasFault block_name_rows }
    ensures in_functions { AllByRecursion HasFault function_name_rows }
    ensures in_catches { AllByRecursion HasFault catch_name_rows }
    ensures in_literals { AllByRecursion HasFault prototype_rows }
{}

/// Local names that a function inside uses.
pub fn names_are_captured()
    ensures of_blocks { AllByRecursion HasFault local_name_rows }
    ensures of_functions { AllByRecursion HasFault function_local_rows }
    ensures uses { AllByRecursion HasFault use_rows }
{}

/// Names that may not be bound or assigned to.
pub fn names_are_barred()
    ensures bound { AllByRecursion HasFault bound_name_rows }
    ensures written { AllByRecursion HasFault written_name_rows }
{}

/// Faults in each part of each form.
pub fn each_part_is_looked_at()
    ensures expressions { AllByRecursion HasFault expression_part_rows }
    ensures statements { AllByRecursion HasFault statement_part_rows }
    ensures functions { AllByRecursion HasFault function_part_rows }
{}

/// What names are bound to within scopes, and the names of scopes.
pub fn names_are_bound()
    ensures in_scripts { AllByRecursion IsBound script_binding_rows }
    ensures in_functions { AllByRecursion IsBound function_binding_rows }
    ensures scopes { AllByRecursion IsScope scope_rows }
{}

/// Which of two faults is the first.
pub fn the_least_fault_is_first()
    ensures rules { AllByRecursion HasFault order_rows }
    ensures phases { AllByRecursion HasFault phase_rows }
{}

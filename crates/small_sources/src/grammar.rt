//! Trees of small sources, and sources outside the grammar. Each function here only names tables of `specs/`.

ghost use Rattle.std.specs.List.{AllByRecursion};
ghost use Rattle.small_sources.specs.Rows.{HasFault, HasScript};
ghost use Rattle.small_sources.specs.Levels.{assignment_rows, conditional_rows, level_rows, prefix_rows, same_level_rows};
ghost use Rattle.small_sources.specs.Forms.{call_rows, literal_rows, new_rows, statement_rows};
ghost use Rattle.small_sources.specs.Refusals.{refused_form_rows, refused_operator_rows, refused_statement_rows};
ghost use Rattle.small_sources.specs.ReservedWords.{key_rows, member_rows, plain_rows, reserved_rows, unused_rows};

/// How operators group (13.4 to 13.16).
pub fn operators_group()
    ensures levels { AllByRecursion HasScript level_rows }
    ensures same_levels { AllByRecursion HasScript same_level_rows }
    ensures assignments { AllByRecursion HasScript assignment_rows }
    ensures prefixes { AllByRecursion HasScript prefix_rows }
    ensures conditionals { AllByRecursion HasScript conditional_rows }
{}

/// Calls, literals and statements.
pub fn forms_are_read()
    ensures constructions { AllByRecursion HasScript new_rows }
    ensures calls { AllByRecursion HasScript call_rows }
    ensures literals { AllByRecursion HasScript literal_rows }
    ensures statements { AllByRecursion HasScript statement_rows }
{}

/// Sources outside the grammar.
pub fn other_forms_are_refused()
    ensures operators { AllByRecursion HasFault refused_operator_rows }
    ensures forms { AllByRecursion HasFault refused_form_rows }
    ensures statements { AllByRecursion HasFault refused_statement_rows }
{}

/// Each reserved word (12.7.2).
pub fn reserved_words_are_no_names()
    ensures reserved { AllByRecursion HasFault reserved_rows }
    ensures plain { AllByRecursion HasFault plain_rows }
    ensures unused { AllByRecursion HasFault unused_rows }
    ensures members { AllByRecursion HasScript member_rows }
    ensures keys { AllByRecursion HasScript key_rows }
{}

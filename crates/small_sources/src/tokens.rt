//! Tokens of small sources (ECMA-262, clause 12), with their places. Each function here only names tables of `specs/`.

ghost use Rattle.std.specs.List.{AllByRecursion};
ghost use Rattle.small_sources.specs.Rows.{HasFault, HasKinds, IsIllFormed, IsRead};
ghost use Rattle.small_sources.specs.Bytes.{ill_formed_rows};
ghost use Rattle.small_sources.specs.Gaps.{comment_fault_rows, comment_rows, line_terminator_rows, no_blank_rows, white_space_rows};
ghost use Rattle.small_sources.specs.Words.{name_fault_rows, name_rows, number_fault_rows, number_rows, punctuator_fault_rows, punctuator_rows};
ghost use Rattle.small_sources.specs.Texts.{escape_fault_rows, escape_rows, text_fault_rows, text_rows};

/// Bytes that are not UTF-8.
pub fn bytes_are_decoded()
    ensures { AllByRecursion IsIllFormed ill_formed_rows }
{}

/// White space, line terminators and comments (12.2 to 12.5), and characters near to them.
pub fn gaps_are_passed()
    ensures white_space { AllByRecursion IsRead white_space_rows }
    ensures line_terminators { AllByRecursion IsRead line_terminator_rows }
    ensures no_blanks { AllByRecursion HasFault no_blank_rows }
    ensures comments { AllByRecursion IsRead comment_rows }
    ensures comment_faults { AllByRecursion HasFault comment_fault_rows }
{}

/// Names (12.7), numbers (12.9.3) and punctuators (12.8).
pub fn words_are_read()
    ensures names { AllByRecursion HasKinds name_rows }
    ensures name_faults { AllByRecursion HasFault name_fault_rows }
    ensures numbers { AllByRecursion HasKinds number_rows }
    ensures number_faults { AllByRecursion HasFault number_fault_rows }
    ensures punctuators { AllByRecursion HasKinds punctuator_rows }
    ensures punctuator_faults { AllByRecursion HasFault punctuator_fault_rows }
{}

/// Texts and their escapes (12.9.4).
pub fn texts_are_read()
    ensures escapes { AllByRecursion HasKinds escape_rows }
    ensures escape_faults { AllByRecursion HasFault escape_fault_rows }
    ensures texts { AllByRecursion HasKinds text_rows }
    ensures text_faults { AllByRecursion HasFault text_fault_rows }
{}

//! Laws over the definitions of tokens. Each function here only names a law.

ghost use Rattle.es_source.specs.Laws.{GapsAreLongest, PhasesAreInOrder, PunctuatorsAreLongest};

/// Behind the gap before a token stands no white space, no line terminator and no comment.
pub fn gaps_are_longest()
    ensures { GapsAreLongest }
{}

/// No punctuator at the front of a source is longer than the one that is taken.
pub fn punctuators_are_longest()
    ensures { PunctuatorsAreLongest }
{}

/// A source is too long, or not UTF-8 after its longest front that is, or read by its characters.
pub fn phases_are_in_order()
    ensures { PhasesAreInOrder }
{}

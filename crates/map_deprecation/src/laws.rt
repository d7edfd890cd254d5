//! Laws of the definitions that the contracts cite, each the contract of a function that does nothing.

ghost use Rattle.map_deprecation.specs.Words.{WordsComeBack};

/// The value of a value's word is that value.
pub fn words_come_back()
    ensures { WordsComeBack }
{}

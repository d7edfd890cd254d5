//! Laws of the definitions that the contracts cite, each the contract of a function that does nothing.

ghost use Rattle.property_keys.specs.Laws.{NumbersComeBack, KeysAreTexts, KeysKeepTexts};

/// The number of the text that `whole_text` makes is the number that it was made of.
pub fn numbers_come_back()
    ensures { NumbersComeBack }
{}

/// Keys that stand for the same text are the same key, where neither is a name whose text is an array index.
pub fn keys_are_texts()
    ensures { KeysAreTexts }
{}

/// The key that `key` gives stands for the text that it was made of.
pub fn keys_keep_texts()
    ensures { KeysKeepTexts }
{}

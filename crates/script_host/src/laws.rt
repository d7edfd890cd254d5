//! Laws of the definitions that the contracts cite, each the contract of a function that does nothing.

ghost use Rattle.script_host.specs.Laws.{HasOneAnswer, HasOneReading, KeepsToBudget, SpeaksOfWholeFile};

/// The bytes of a script have a first fault or a tree: one alone, and not both.
pub fn one_reading_each()
    ensures { HasOneReading }
{}

/// The bytes of a script have one answer: a first fault, or a construct that does not run yet, or an expected output.
pub fn one_answer_each()
    ensures { HasOneAnswer }
{}

/// Where the files tell the bytes under the word, `Finished`, `Thrown`, `Refused` and `BudgetEnded` speak of all of these bytes, and no
/// other status but those of a fault and of want of memory comes.
pub fn speaks_of_whole_file()
    ensures { SpeaksOfWholeFile }
{}

/// A run takes at most its budget of turns.
pub fn runs_keep_to_their_budget()
    ensures { KeepsToBudget }
{}

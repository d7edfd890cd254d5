//! The reading of the words.

ghost use Rattle.std.specs.Prelude.{◌≡◌, ◌≢◌, ◌↔◌, ◌∷◌, [], ℕ, List, IfOk, IsErrOf, option_map, codes, true, false};
ghost use Rattle.clap.specs.Words.{kind_of, rule_of};
ghost use Rattle.command_words.specs.Command.{IsTheCommand, option_rule, takes_words, word_of};
ghost use Rattle.command_words.specs.Numbers.{number_of, within};
ghost use Rattle.command_words.specs.Orders.{Generated, ReadsOrder, budget_of, order_by, order_in, source_in, source_of};

use crate::numbers::number_within;
use crate::orders::{Order, Source, WordsStop};
use clap::error::ErrorKind;
use clap::{Arg, Command, Error};
use hc_outside::Text;
use std::alloc::{AllocError, Global};

/// The budget of turns where the words have none.
const DEFAULT_BUDGET: u64 = 1_000_000;

/// The most turns that the words may ask for.
const MOST_BUDGET: u32 = 10_000_000;

/// The most constructors of a generated script.
const MOST_GENERATED: u32 = 10_000;

/// The words by their places.
#[derive(Clone, Copy, Debug, Drop)]
struct Words<'a> {
    budget: Option<&'a str>,
    generate: Option<&'a str>,
    file: Option<&'a str>,
}

// `--name VALUE`
fn option_named<'a>(alloc: Global, name: &'a str) -> Arg<'a>
    ensures rule { rule_of result ≡ option_rule name.entry.now }
    ensures local { result.global ≡ false }
{
    Arg::new(alloc, name).long(name)
}

// `[--budget N] [--generate N] [FILE]`, over words without the program's name.
fn simple_command<'a>(alloc: Global) -> Result<Command<'a>, AllocError>
    ensures { IfOk result IsTheCommand }
{
    let budget = option_named(alloc, "budget");
    let generate = option_named(alloc, "generate");
    let file = Arg::new(alloc, "file");
    let command = Command::new(alloc, "hcjs")
        .arg(budget)?
        .arg(generate)?
        .arg(file)?;
    Ok(command.no_binary_name(true))
}

fn stop_of(error: &Error) -> WordsStop
    ensures memory { kind_of error.now ≡ ErrorKind.OutOfMemory → result ≡ WordsStop.NoMemory }
    ensures usage { (result ≡ WordsStop.Usage) ↔ (kind_of error.now ≢ ErrorKind.OutOfMemory) }
{
    match error.kind() {
        ErrorKind::OutOfMemory => WordsStop::NoMemory,
        _ => WordsStop::Usage,
    }
}

// The words by their places. Usage comes exactly where the simple command does not take them.
fn read_words<'a>(alloc: Global, words: &'a [Text]) -> Result<Words<'a>, WordsStop>
    ensures taken { IfOk result (λ w. takes_words words.entry.now ≡ true) }
    ensures usage { IsErrOf result WordsStop.Usage → takes_words words.entry.now ≡ false }
    ensures budget { IfOk result (λ w. option_map (λ s. s.now) w.budget ≡ word_of (codes "budget") words.entry.now) }
    ensures generate { IfOk result (λ w. option_map (λ s. s.now) w.generate ≡ word_of (codes "generate") words.entry.now) }
    ensures file { IfOk result (λ w. option_map (λ s. s.now) w.file ≡ word_of (codes "file") words.entry.now) }
{
    let Ok(command) = simple_command(alloc) else {
        return Err(WordsStop::NoMemory);
    };
    match command.try_get_matches_from(words) {
        Ok(matches) => {
            let budget = matches.get_str("budget");
            let generate = matches.get_str("generate");
            let file = matches.get_str("file");
            Ok(Words {
                budget,
                generate,
                file,
            })
        }
        Err(error) => Err(stop_of(&error)),
    }
}

// The turns of the run: the number in the words, or else the default.
fn budget_of(word: Option<&str>) -> Option<u64>
    ensures { result ≡ budget_of (option_map (λ s. s.now) word.entry) }
{
    match word {
        None => Some(DEFAULT_BUDGET),
        Some(text) => match number_within(text, 1, MOST_BUDGET) {
            Some(turns) => Some(u64::from(turns)),
            None => None,
        },
    }
}

// The generated script, where its number is in its range.
fn generated_of<'a>(text: &str) -> Option<Source<'a>>
    ensures { option_map source_in result ≡ option_map Generated (within 1 10000 (number_of text.now)) }
{
    match number_within(text, 1, MOST_GENERATED) {
        Some(count) => Some(Source::Generated(count)),
        None => None,
    }
}

// Exactly one of a file and a generated script.
fn source_of<'a>(file: Option<&'a str>, generate: Option<&'a str>) -> Option<Source<'a>>
    ensures { option_map source_in result ≡ source_of (option_map (λ s. s.now) file.entry) (option_map (λ s. s.now) generate.entry) }
{
    match (file, generate) {
        (Some(name), None) => Some(Source::File(name)),
        (None, Some(text)) => generated_of(text),
        (None, None) | (Some(_), Some(_)) => None,
    }
}

/// What the words order, without the program's name.
///
/// The command is `[--budget N] [--generate N] [FILE]`. `Usage` comes exactly where `clap` does not take the words for another cause than memory, a number
/// is not of one to eight decimal digits or outside its range, or FILE and `--generate` are both there or both absent.
pub fn read_order<'a>(alloc: Global, words: &'a [Text]) -> Result<Order<'a>, WordsStop>
    ensures { ReadsOrder words.entry.now result }
{
    let words = read_words(alloc, words)?;
    let Some(budget) = budget_of(words.budget) else {
        return Err(WordsStop::Usage);
    };
    let Some(source) = source_of(words.file, words.generate) else {
        return Err(WordsStop::Usage);
    };
    Ok(Order { budget, source })
}

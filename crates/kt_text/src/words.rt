// The words that the program is called with.
ghost use Rattle.std.specs.Prelude.{◌≡◌, ◌≤◌, [], ◌∷◌, IfSome};
ghost use Rattle.std.specs.Result.{result_ok};
ghost use Rattle.kt_text.specs.Words.{command_of, is_number, kind_of, largest_of, number_between, number_of, sized_of, texts_of, workers_of};

use crate::bytes::{are_digits, value};
use crate::commands::{Command, Kind, Usage};
use kt_law::WORKERS;

/// The command that these words ask for.
pub fn read_words(words: &[String]) -> Result<Command, Usage>
    ensures { result_ok result ≡ command_of (texts_of words.now) }
{
    command(words).ok_or(Usage)
}

fn command(words: &[String]) -> Option<Command>
    ensures { result ≡ command_of (texts_of words.now) }
{
    match words {
        [name] => one_word(name.as_str()),
        [name, workers] => two_words(name.as_str(), workers.as_str()),
        [name, workers, number] => three_words(name.as_str(), workers.as_str(), number.as_str()),
        [name, kind, size, number] => four_words(
            name.as_str(),
            kind.as_str(),
            size.as_str(),
            number.as_str(),
        ),
        [name, kind, size, number, workers] => five_words(
            name.as_str(),
            kind.as_str(),
            size.as_str(),
            number.as_str(),
            workers.as_str(),
        ),
        _ => None,
    }
}

fn one_word(name: &str) -> Option<Command>
    ensures { result ≡ command_of (name.now ∷ []) }
{
    if name == "check" {
        Some(Command::Check)
    } else if name == "seq" {
        Some(Command::Seq)
    } else {
        None
    }
}

fn two_words(name: &str, workers: &str) -> Option<Command>
    ensures { result ≡ command_of (name.now ∷ workers.now ∷ []) }
{
    if name != "run" {
        return None;
    }
    Some(Command::Run(read_workers(workers.as_bytes())?))
}

fn three_words(name: &str, workers: &str, number: &str) -> Option<Command>
    ensures { result ≡ command_of (name.now ∷ workers.now ∷ number.now ∷ []) }
{
    if name != "sim" {
        return None;
    }
    Some(Command::Sim(
        read_workers(workers.as_bytes())?,
        read_number(number.as_bytes())?,
    ))
}

fn four_words(name: &str, kind: &str, size: &str, number: &str) -> Option<Command>
    ensures { result ≡ command_of (name.now ∷ kind.now ∷ size.now ∷ number.now ∷ []) }
{
    if name != "gen" {
        return None;
    }
    let (kind, size) = read_sized(kind, size.as_bytes())?;
    Some(Command::Gen(kind, size, read_number(number.as_bytes())?))
}

fn five_words(name: &str, kind: &str, size: &str, number: &str, workers: &str) -> Option<Command>
    ensures { result ≡ command_of (name.now ∷ kind.now ∷ size.now ∷ number.now ∷ workers.now ∷ []) }
{
    if name != "demo" {
        return None;
    }
    let (kind, size) = read_sized(kind, size.as_bytes())?;
    let number = read_number(number.as_bytes())?;
    Some(Command::Demo(kind, size, number, read_workers(workers.as_bytes())?))
}

fn read_sized(kind: &str, size: &[u8]) -> Option<(Kind, u32)>
    ensures { result ≡ sized_of kind.now size.now }
{
    let kind = read_kind(kind)?;
    let size = read_between(1, largest(kind), size)?;
    Some((kind, size as u32))
}

fn read_kind(word: &str) -> Option<Kind>
    ensures { result ≡ kind_of word.now }
{
    if word == "mul" {
        Some(Kind::Mul)
    } else if word == "walks" {
        Some(Kind::Walks)
    } else if word == "stencil" {
        Some(Kind::Stencil)
    } else if word == "scan" {
        Some(Kind::Scan)
    } else {
        None
    }
}

/// The largest size of a kind.
fn largest(kind: Kind) -> u64
    ensures value { result ≡ largest_of kind }
    ensures small { result ≤ 1024 }
{
    match kind {
        Kind::Mul => 25,
        Kind::Walks => 12,
        Kind::Stencil | Kind::Scan => 1_024,
    }
}

fn read_workers(word: &[u8]) -> Option<u32>
    ensures { result ≡ workers_of word.now }
{
    let workers = read_between(1, u64::from(WORKERS), word)?;
    Some(workers as u32)
}

fn read_number(word: &[u8]) -> Option<u64>
    ensures { result ≡ number_of word.now }
{
    read_between(0, u64::MAX, word)
}

/// The number of 1 to 20 digits, if the word is one and the number within these bounds.
fn read_between(low: u64, high: u64, word: &[u8]) -> Option<u64>
    ensures value { result ≡ number_between low high word.now }
    ensures small { IfSome result (λ n. n ≤ high) }
{
    if !is_number(word) {
        return None;
    }
    let n = value(word)?;
    if low <= n && n <= high { Some(n) } else { None }
}

fn is_number(word: &[u8]) -> bool
    ensures { result ≡ is_number word.now }
{
    !word.is_empty() && word.len() <= 20 && are_digits(word)
}

// Lines that tell how a call ended, and the totals of a run.
ghost use Rattle.std.specs.Prelude.{◌≡◌, ◌++◌, IfOk, OnOk, string_bytes};
ghost use Rattle.std.specs.List.{flat_map};
ghost use Rattle.kt_print.specs.Lines.{fault_text, fault_word, index_text, line_of, path_text, place_text, refusal_text, rule_word, step_text, too_few_text, totals_text, words_of};

use kt_law::{F, NoMemory, P, Place, Refusal};
use kt_prog::FaultAt;
use std::alloc::{AllocError, Global};

/// An answer of one line.
#[derive(Debug, Drop)]
pub enum Line {
    /// The words ask for nothing that there is.
    Usage,
    /// The job has too many bytes.
    TooLong,
    /// The program is not read, or not accepted.
    Refused(Refusal),
    /// An item of the data is no number.
    BadNumber(Place),
    /// The numbers found in the data, and those wanted.
    TooFew(u32, u32),
    /// The data goes on behind the last number that is wanted.
    TooMany(Place),
    /// The run met a fault.
    Fault(FaultAt),
    /// The run had too many tasks or indexes.
    Limit,
    /// The tasks and the indexes of a run, and the sum of the elements of its output families modulo 2^64.
    Totals(u32, u32, u64),
}

/// The line with its line feed.
pub fn line_bytes(alloc: Global, line: &Line) -> Result<Vec<u8>, NoMemory>
    ensures { IfOk result (λ text. text.items ≡ line_of line.now) }
{
    let mut text = String::new(alloc);
    push_words(&mut text, line)?;
    text.push('\n')?;
    Ok(text.into_bytes())
}

fn push_words(text: &mut String, line: &Line) -> Result<(), AllocError>
    ensures { OnOk result (string_bytes text.new ≡ string_bytes text.old ++ words_of line.now) }
{
    match line {
        Line::Usage => text.push_str("usage"),
        Line::TooLong => text.push_str("too long"),
        Line::Refused(refusal) => push_refusal(text, *refusal),
        Line::BadNumber(place) => {
            text.push_str("data B1 ")?;
            push_place(text, *place)
        }
        Line::TooFew(found, wanted) => push_too_few(text, *found, *wanted),
        Line::TooMany(place) => {
            text.push_str("data B3 ")?;
            push_place(text, *place)
        }
        Line::Fault(fault) => push_fault(text, fault),
        Line::Limit => text.push_str("limit"),
        Line::Totals(tasks, indexes, sum) => push_totals(text, *tasks, *indexes, *sum),
    }
}

fn push_too_few(text: &mut String, found: u32, wanted: u32) -> Result<(), AllocError>
    ensures { OnOk result (string_bytes text.new
        ≡ string_bytes text.old ++ too_few_text found wanted) }
{
    write!(text, "data B2 {found} {wanted}")
}

fn push_totals(text: &mut String, tasks: u32, indexes: u32, sum: u64) -> Result<(), AllocError>
    ensures { OnOk result (string_bytes text.new
        ≡ string_bytes text.old ++ totals_text tasks indexes sum) }
{
    write!(text, "tasks {tasks} indexes {indexes} sum {sum}")
}

fn push_place(text: &mut String, place: Place) -> Result<(), AllocError>
    ensures { OnOk result (string_bytes text.new ≡ string_bytes text.old ++ place_text place) }
{
    let line = place.line;
    let column = place.column;
    write!(text, "{line}:{column}")
}

fn push_refusal(text: &mut String, refusal: Refusal) -> Result<(), AllocError>
    ensures { OnOk result (string_bytes text.new ≡ string_bytes text.old ++ refusal_text refusal) }
{
    let word = word_of_rule(refusal.code);
    write!(text, "refused {word} ")?;
    push_place(text, refusal.place)
}

fn push_fault(text: &mut String, fault: &FaultAt) -> Result<(), AllocError>
    ensures { OnOk result (string_bytes text.new ≡ string_bytes text.old ++ fault_text fault.now) }
{
    let word = word_of_fault(fault.fault);
    let line = fault.line;
    write!(text, "fault {word} ")?;
    push_path(text, fault.path.as_slice())?;
    push_index(text, fault.index)?;
    write!(text, " line {line}")
}

fn push_path(text: &mut String, path: &[u32]) -> Result<(), AllocError>
    ensures { OnOk result (string_bytes text.new ≡ string_bytes text.old ++ path_text path.now) }
{
    match path.split_first() {
        None => text.push_str("main"),
        Some((first, steps)) => {
            write!(text, "{first}")?;
            push_steps(text, steps)
        }
    }
}

/// Adds the numbers of a path behind its first one.
fn push_steps(text: &mut String, steps: &[u32]) -> Result<(), AllocError>
    ensures { OnOk result (string_bytes text.new
        ≡ string_bytes text.old ++ flat_map step_text steps.now) }
{
    for step in steps {
        write!(text, ".{step}")?;
    }
    Ok(())
}

fn push_index(text: &mut String, index: Option<u32>) -> Result<(), AllocError>
    ensures { OnOk result (string_bytes text.new ≡ string_bytes text.old ++ index_text index) }
{
    match index {
        None => Ok(()),
        Some(index) => write!(text, " index {index}"),
    }
}

fn word_of_rule(code: P) -> &'static str
    ensures { result.now ≡ rule_word code }
{
    match code {
        P::P1 => "P1",
        P::P2 => "P2",
        P::P3 => "P3",
        P::P4 => "P4",
        P::P5 => "P5",
        P::P6 => "P6",
        P::P7 => "P7",
        P::P8 => "P8",
        P::P9 => "P9",
        P::P10 => "P10",
        P::P11 => "P11",
        P::P12 => "P12",
        P::P13 => "P13",
        P::P14 => "P14",
    }
}

fn word_of_fault(fault: F) -> &'static str
    ensures { result.now ≡ fault_word fault }
{
    match fault {
        F::F1 => "F1",
        F::F2 => "F2",
        F::F3 => "F3",
        F::F4 => "F4",
        F::F5 => "F5",
        F::F6 => "F6",
        F::F7 => "F7",
    }
}

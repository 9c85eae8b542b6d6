// The numbers behind a program.
ghost use Rattle.std.specs.Prelude.{◌≡◌, ◌≢◌, ◌+◌, ◌<◌, ◌≤◌, length, drop, IfOk, IfErr, Ok, Err};
ghost use Rattle.std.specs.List.{prefix_len};
ghost use Rattle.kt_text.specs.Bytes.{is_blank, is_item_byte};
ghost use Rattle.kt_text.specs.Data.{item_number_of, numbers};

use crate::bytes::{are_digits, blanks_length, item_length, value};
use crate::gaps::place_at;
use kt_law::Place;
use std::alloc::Global;

/// Why the data of a job are refused.
#[derive(Clone, Copy, Debug, PartialEq, Eq)]
pub enum DataError {
    /// An item here that is no number below 2^64.
    BadNumber(Place),
    /// Fewer items than wanted: how many there are, and how many were wanted.
    TooFew(u32, u32),
    /// The first item past those wanted is here.
    TooMany(Place),
    /// No memory for the numbers.
    NoMemory,
}

/// The numbers behind `from`, of which there have to be as many as wanted. Memory is taken for the numbers read, and the
/// reading stops behind the last one wanted.
pub fn read_data(alloc: Global, job: &[u8], from: usize, wanted: u32) -> Result<Vec<u64>, DataError>
    requires inside { from ≤ length job.now }
    requires short { length job.now < u32.MAX }
    ensures read { IfOk result (λ read. numbers job.now from wanted ≡ Ok read.items) }
    ensures count { IfOk result (λ read. length read.items ≡ wanted) }
    ensures refused { IfErr result
        (λ error. error ≢ DataError.NoMemory → numbers job.now from wanted ≡ Err error) }
{
    let mut read = Vec::new(alloc);
    let mut at = item_start(job, from);
    while at < job.len() {
        if read.len() == wanted as usize {
            return Err(DataError::TooMany(place_at(job, at)));
        }
        let stop = item_stop(job, at);
        let Some(number) = item_number(&job[at..stop]) else {
            return Err(DataError::BadNumber(place_at(job, at)));
        };
        let Ok(()) = read.push(number) else {
            return Err(DataError::NoMemory);
        };
        at = item_start(job, stop);
    }
    if read.len() < wanted as usize {
        Err(DataError::TooFew(read.len() as u32, wanted))
    } else {
        Ok(read)
    }
}

/// Where the first item behind `at` begins, or the end.
fn item_start(job: &[u8], at: usize) -> usize
    requires { at ≤ length job.now }
    ensures start { result ≡ at + prefix_len is_blank (drop at job.now) }
    ensures within { result ≤ length job.now }
{
    at + blanks_length(&job[at..])
}

/// Where the item that begins at `start` ends.
fn item_stop(job: &[u8], start: usize) -> usize
    requires { start ≤ length job.now }
    ensures stop { result ≡ start + prefix_len is_item_byte (drop start job.now) }
    ensures within { result ≤ length job.now }
{
    start + item_length(&job[start..])
}

/// The number that an item writes, if it is one.
fn item_number(item: &[u8]) -> Option<u64>
    ensures { result ≡ item_number_of item.now }
{
    if are_digits(item) { value(item) } else { None }
}

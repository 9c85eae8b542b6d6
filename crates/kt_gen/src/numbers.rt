// The numbers of the generated jobs, and their lines.
ghost use Rattle.std.specs.Prelude.{◌≡◌, ◌≤◌, ◌<◌, ◌^◌, ◌++◌, IfOk, OnOk, string_bytes};
ghost use Rattle.kt_gen.specs.Jobs.{IsSize};
ghost use Rattle.kt_gen.specs.Numbers.{arc, drawn, element_of, lines_text, members_of, numbers_of, row_of, row_text, rows_of, width_of};

use kt_law::NoMemory;
use kt_text::Kind;
use std::alloc::{AllocError, Global};

/// What the numbers of a job are drawn for.
#[derive(Clone, Copy)]
pub(crate) struct Drawing {
    pub(crate) kind: Kind,
    pub(crate) size: u64,
    pub(crate) number: u64,
    ghost sized: { IsSize kind size },
}

impl Drawing {
    /// All numbers, in order.
    pub(crate) fn numbers(self, alloc: Global) -> Result<Vec<u64>, NoMemory>
        ensures { IfOk result
            (λ numbers. numbers.items ≡ numbers_of self.kind self.size self.number) }
    {
        let mut numbers = Vec::new(alloc);
        for member in 0..self.members() {
            self.push_row(&mut numbers, member)?;
        }
        Ok(numbers)
    }

    /// Their lines.
    pub(crate) fn lines(self, alloc: Global, numbers: &[u64]) -> Result<Vec<u8>, NoMemory>
        requires { numbers.now ≡ numbers_of self.kind self.size self.number }
        ensures { IfOk result
            (λ text. text.items ≡ lines_text (rows_of self.kind self.size self.number)) }
    {
        let mut text = String::new(alloc);
        let mut rest = numbers;
        for member in 0..self.members() {
            let (row, behind) = rest.split_at(self.width());
            push_line(&mut text, row)?;
            rest = behind;
        }
        Ok(text.into_bytes())
    }

    /// How many rows there are.
    fn members(self) -> u64
        ensures count { result ≡ members_of self.kind self.size }
        ensures few { result < 2 ^ 11 }
    {
        match self.kind {
            Kind::Mul => 2 * self.size * self.size,
            Kind::Walks => self.size * self.size,
            Kind::Stencil => self.size + 2,
            Kind::Scan => self.size,
        }
    }

    /// How many numbers a row has.
    fn width(self) -> usize
        ensures { result ≡ width_of self.kind }
    {
        match self.kind {
            Kind::Mul | Kind::Walks => 256,
            Kind::Stencil | Kind::Scan => 16,
        }
    }

    /// Draws the numbers of a row.
    fn push_row(self, numbers: &mut Vec<u64>, member: u64) -> Result<(), AllocError>
        requires { member < members_of self.kind self.size }
        ensures { OnOk result
            (numbers.new.items
            ≡ numbers.old.items ++ row_of self.kind self.size self.number member) }
    {
        for place in 0..self.width() as u64 {
            numbers.push(self.element(member, place))?;
        }
        Ok(())
    }

    fn element(self, member: u64, place: u64) -> u64
        requires member { member < members_of self.kind self.size }
        requires place { place < width_of self.kind }
        ensures { result ≡ element_of self.kind self.size self.number member place }
    {
        let size = self.size;
        match self.kind {
            Kind::Mul => self.drawn(256 * member + place),
            Kind::Walks => self.arc(
                16 * (member / size) + place / 16,
                16 * (member % size) + place % 16,
            ),
            Kind::Stencil => {
                if member == 0 || member == size + 1 {
                    0
                } else {
                    self.drawn(16 * (member - 1) + place)
                }
            }
            Kind::Scan => self.drawn(16 * member + place),
        }
    }

    /// The length of the arc from node `u` to node `v`.
    fn arc(self, u: u64, v: u64) -> u64
        requires size { self.size ≤ 12 }
        requires u { u < 2 ^ 8 }
        requires v { v < 2 ^ 8 }
        ensures { result ≡ arc self.size self.number u v }
    {
        let length = self.drawn(16 * self.size * u + v);
        if u == v {
            0
        } else if length % 4 == 0 {
            u64::MAX
        } else {
            length
        }
    }

    /// The number that is drawn at `k`.
    fn drawn(self, k: u64) -> u64
        requires { k < 2 ^ 20 }
        ensures { result ≡ drawn self.number k }
    {
        let n = self.number % 1009;
        (k * k + n * k + n) % 1009
    }
}

/// Adds the line of a row.
fn push_line(text: &mut String, row: &[u64]) -> Result<(), AllocError>
    ensures { OnOk result (string_bytes text.new ≡ string_bytes text.old ++ row_text row.now) }
{
    match row {
        [] => text.push('\n'),
        [first, rest @ ..] => {
            write!(text, "{first}")?;
            for value in rest {
                write!(text, " {value}")?;
            }
            text.push('\n')
        }
    }
}

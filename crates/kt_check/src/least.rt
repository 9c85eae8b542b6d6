// The breach that comes first.
ghost use Rattle.std.specs.Prelude.{◌≡◌};
ghost use Rattle.kt_prog.specs.Declarations.{place_before};
ghost use Rattle.kt_prog.specs.Rules.{broken_at, denied};
ghost use Rattle.kt_prog.specs.Refusals.{goes_before, noted, rule_number, same_place};

use kt_law::{P, Place, Refusal};

fn number(code: P) -> u8
    ensures { result ≡ rule_number code }
{
    match code {
        P::P1 => 1,
        P::P2 => 2,
        P::P3 => 3,
        P::P4 => 4,
        P::P5 => 5,
        P::P6 => 6,
        P::P7 => 7,
        P::P8 => 8,
        P::P9 => 9,
        P::P10 => 10,
        P::P11 => 11,
        P::P12 => 12,
        P::P13 => 13,
        P::P14 => 14,
    }
}

pub fn is_before(a: Place, b: Place) -> bool
    ensures { result ≡ place_before a b }
{
    a.line < b.line || a.line == b.line && a.column < b.column
}

fn is_same(a: Place, b: Place) -> bool
    ensures { result ≡ same_place a b }
{
    a.line == b.line && a.column == b.column
}

fn comes_first(a: Refusal, b: Refusal) -> bool
    ensures { result ≡ goes_before a b }
{
    is_before(a.place, b.place) || is_same(a.place, b.place) && number(a.code) < number(b.code)
}

/// Notes a breach, which is kept if it comes before the one that was found so far.
pub fn note(found: &mut Option<Refusal>, place: Place, code: P)
    ensures { found.new ≡ noted found.old (broken_at place code) }
{
    let breach = Refusal { code, place };
    let first = match found {
        Some(least) => comes_first(breach, *least),
        None => true,
    };
    if first {
        *found = Some(breach);
    }
}

/// Notes a breach where the test holds.
pub fn note_if(found: &mut Option<Refusal>, place: Place, code: P, test: bool)
    ensures { found.new ≡ noted found.old (denied place code test) }
{
    if test {
        note(found, place, code);
    }
}

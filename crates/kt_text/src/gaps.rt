// Blanks and comments between tokens, and places.
ghost use Rattle.std.specs.Prelude.{◌≡◌, ◌+◌, ◌<◌, ◌≤◌, length};
ghost use Rattle.kt_text.specs.Gaps.{start_of};
ghost use Rattle.kt_text.specs.Places.{place_behind, place_of};

use crate::bytes::{is_space, line_length};
use crate::lexemes::byte_at;
use kt_law::Place;

/// Where the next token begins, and its place.
pub(crate) fn skip_gap(text: &[u8], from: usize, from_place: Place) -> (usize, Place)
    requires inside { from ≤ length text.now }
    requires short { length text.now < u32.MAX }
    requires placed { from_place ≡ place_of text.now from }
    ensures start { result.0 ≡ start_of text.now from }
    ensures place { result.1 ≡ place_of text.now result.0 }
    ensures within { result.0 ≤ length text.now }
{
    let mut at = from;
    // The place of `since`, from which the line goes on to `at`.
    let mut place = from_place;
    let mut since = from;
    'gap: loop {
        let byte = byte_at(text, at);
        if is_space(byte) {
            at += 1;
        } else if byte == b'#' {
            at += line_length(&text[at..]);
        } else if byte == b'\n' {
            at += 1;
            since = at;
            place = Place {
                line: place.line + 1,
                column: 1,
            };
        } else {
            return (at, moved(place, at - since));
        }
    }
}

/// The place so many bytes further on in the line.
fn moved(place: Place, length: usize) -> Place
    requires { place.column + length ≤ u32.MAX }
    ensures { result ≡ record place { column = place.column + length } }
{
    Place {
        line: place.line,
        column: place.column + length as u32,
    }
}

/// The place behind a byte.
pub(crate) fn place_behind(place: Place, byte: u8) -> Place
    requires line { place.line < u32.MAX }
    requires column { place.column < u32.MAX }
    ensures { result ≡ place_behind place byte }
{
    if byte == b'\n' {
        Place {
            line: place.line + 1,
            column: 1,
        }
    } else {
        Place {
            line: place.line,
            column: place.column + 1,
        }
    }
}

/// The place of the byte at `at`, or of the end.
pub(crate) fn place_at(text: &[u8], at: usize) -> Place
    requires inside { at ≤ length text.now }
    requires short { length text.now < u32.MAX }
    ensures { result ≡ place_of text.now at }
{
    let mut place = Place { line: 1, column: 1 };
    for byte in &text[..at] {
        place = place_behind(place, *byte);
    }
    place
}

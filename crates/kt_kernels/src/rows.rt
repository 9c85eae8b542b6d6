// The kernels that work on one row: a stencil and a running sum.
ghost use Rattle.std.specs.Prelude.{◌≡◌, ℕ, ◌+◌, ◌*◌, ◌%◌, ◌^◌, ◌<◌, ◌≤◌, ◌++◌, ◌∷◌, [], length, slice_index};
ghost use Rattle.kt_law.specs.PlainKernels.{element_before, element_behind, scan_of, stencil_of};

use crate::semirings::LANES;
use std::simd::prelude::*;

/// The element before element `at` of a row that has `left` before it.
fn before(left: u64, row: &[u64], at: usize) -> u64
    requires { at ≤ length row.now }
    ensures { result ≡ element_before left row.now at }
{
    if at == 0 { left } else { row[at - 1] }
}

/// The element behind element `at` of a row that has `right` behind it.
fn behind(row: &[u64], right: u64, at: usize) -> u64
    requires { at < length row.now }
    ensures { result ≡ element_behind row.now right at }
{
    row.get(at + 1).copied().unwrap_or(right)
}

/// Each of eight elements of a row twice, with the one before it and the one behind it. The last of `previous` and
/// `behind` are the neighbours of the eight.
#[inline(always)]
fn weighted(previous: u64x8, here: u64x8, behind: u64) -> u64x8
    ensures lanes { length result ≡ LANES }
    ensures values { (j : ℕ) → j < LANES → slice_index result j
        ≡ (slice_index (slice_index previous 7 ∷ here) j + 2 * slice_index here j
        + slice_index (here ++ behind ∷ []) (j + 1)) % 2 ^ 64 }
{
    let befores = previous.shuffle(here, [7, 8, 9, 10, 11, 12, 13, 14]);
    let behinds = here.shuffle(u64x8::splat(behind), [1, 2, 3, 4, 5, 6, 7, 8]);
    befores + (here + here) + behinds
}

/// Writes each element of `row` twice with its two neighbours, modulo 2^64. `left` stands before the row and
/// `right` behind it.
pub fn stencil(left: u64, row: &[u64], right: u64, out: &mut [u64])
    requires { length out.old ≡ length row.now }
    ensures { out.new ≡ stencil_of left row.now right }
{
    // Vectors that have an element of the row behind them.
    let whole = row.len().saturating_sub(1) / LANES;
    let mut previous = u64x8::splat(left);
    for block in 0..whole {
        let at = block * LANES;
        let here = u64x8::from_slice(&row[at..]);
        weighted(previous, here, row[at + LANES]).copy_to_slice(&mut out[at..]);
        previous = here;
    }
    for at in whole * LANES..row.len() {
        let neighbours = before(left, row, at).wrapping_add(behind(row, right, at));
        out[at] = neighbours.wrapping_add(row[at].wrapping_mul(2));
    }
}

// One sum follows on the other, and a vector of two, as the processor has them, takes longer to sum within itself
// than two additions take: so this is no loop over vectors.
/// Writes over each element of `row` the sum of `start` and of the elements up to it, modulo 2^64.
pub fn scan(start: u64, row: &mut [u64])
    ensures { row.new ≡ scan_of start row.old }
{
    let mut sum = start;
    for element in row.iter_mut() {
        sum = sum.wrapping_add(*element);
        *element = sum;
    }
}

// The product of two tiles over a semiring.
ghost use Rattle.std.specs.Prelude.{◌≡◌, ℕ, ◌+◌, ◌*◌, ◌<◌, ◌≤◌, length, map, slice_index};
ghost use Rattle.std.specs.List.{range_with_len};
ghost use Rattle.kt_law.specs.PlainKernels.{mul_of, minplus_of};
ghost use Rattle.kt_kernels.specs.Products.{element_of, product_of};

use crate::semirings::{LANES, Semiring, Tropical, Wrapping};
use kt_law::LENGTH;
use std::simd::prelude::*;

/// What `row` makes with column `column` of the tile `b`, which has `width` columns.
fn element<S: Semiring>(row: &[u64], b: &[u64], width: usize, column: usize) -> u64
    requires shape { length b.now ≡ length row.now * width }
    requires within { column < width }
    ensures { result ≡ element_of S.plus S.times S.ZERO row.now b.now width column }
{
    let mut sum = S::ZERO;
    for (k, x) in row.iter().enumerate() {
        sum = S::add_product(sum, *x, b[k * width + column]);
    }
    sum
}

/// What `row` makes with the eight columns from `column` on.
#[inline(always)]
fn elements<S: Semiring>(row: &[u64], b: &[u64], width: usize, column: usize) -> u64x8
    requires shape { length b.now ≡ length row.now * width }
    requires within { column + LANES ≤ width }
    ensures { result
        ≡ map (element_of S.plus S.times S.ZERO row.now b.now width) (range_with_len column LANES) }
{
    let mut sums = u64x8::splat(S::ZERO);
    for (k, x) in row.iter().enumerate() {
        sums = S::add_products(sums, *x, u64x8::from_slice(&b[k * width + column..]));
    }
    sums
}

/// Writes a row of the product.
fn multiply_row<S: Semiring>(row: &[u64], b: &[u64], out: &mut [u64])
    requires { length b.now ≡ length row.now * length out.old }
    ensures { out.new
        ≡ map (element_of S.plus S.times S.ZERO row.now b.now (length out.old))
        (range_with_len 0 (length out.old)) }
{
    let width = out.len();
    let whole = width / LANES;
    for block in 0..whole {
        let column = block * LANES;
        elements::<S>(row, b, width, column).copy_to_slice(&mut out[column..]);
    }
    for column in whole * LANES..width {
        out[column] = element::<S>(row, b, width, column);
    }
}

/// Writes the product of the n by p tile `a` with the p by q tile `b`.
fn multiply<S: Semiring>(n: usize, p: usize, q: usize, a: &[u64], b: &[u64], out: &mut [u64])
    requires rows { n ≤ LENGTH }
    requires depth { p ≤ LENGTH }
    requires columns { q ≤ LENGTH }
    requires a_shape { length a.now ≡ n * p }
    requires b_shape { length b.now ≡ p * q }
    requires out_shape { length out.old ≡ n * q }
    ensures { out.new ≡ product_of S.plus S.times S.ZERO n p q a.now b.now }
{
    for i in 0..n {
        multiply_row::<S>(&a[i * p..i * p + p], b, &mut out[i * q..i * q + q]);
    }
}

/// Writes the product of the n by p tile `a` with the p by q tile `b`, modulo 2^64. Tiles are stored row by row.
pub fn mul(n: usize, p: usize, q: usize, a: &[u64], b: &[u64], out: &mut [u64])
    requires rows { n ≤ LENGTH }
    requires depth { p ≤ LENGTH }
    requires columns { q ≤ LENGTH }
    requires a_shape { length a.now ≡ n * p }
    requires b_shape { length b.now ≡ p * q }
    requires out_shape { length out.old ≡ n * q }
    ensures { out.new ≡ mul_of n p q a.now b.now }
{
    multiply::<Wrapping>(n, p, q, a, b, out);
}

/// The same with the least value for the sum, and the sum that stops at 2^64-1 for the product.
pub fn minplus(n: usize, p: usize, q: usize, a: &[u64], b: &[u64], out: &mut [u64])
    requires rows { n ≤ LENGTH }
    requires depth { p ≤ LENGTH }
    requires columns { q ≤ LENGTH }
    requires a_shape { length a.now ≡ n * p }
    requires b_shape { length b.now ≡ p * q }
    requires out_shape { length out.old ≡ n * q }
    ensures { out.new ≡ minplus_of n p q a.now b.now }
{
    multiply::<Tropical>(n, p, q, a, b, out);
}

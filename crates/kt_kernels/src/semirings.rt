// The two semirings over which tiles are multiplied.
ghost use Rattle.std.specs.Prelude.{◌≡◌, ℕ, ◌+◌, ◌*◌, ◌-◌, ◌%◌, ◌^◌, length};
ghost use Rattle.std.specs.Simd.Lanes.{zip2};
ghost use Rattle.kt_law.specs.Operators.{fold_of, satadd_of};
ghost use Rattle.kt_law.specs.declared.operators.Op.TheVariants.{Add, Min};

use std::simd::prelude::*;

/// Numbers that a vector holds.
pub(crate) const LANES: usize = 8;

/// A sum and a product of numbers, as the product of two tiles is made of them.
pub(crate) trait Semiring {
    ghost plus: { ℕ → ℕ → ℕ };

    ghost times: { ℕ → ℕ → ℕ };

    ghost ZERO: { ℕ };

    /// The sum of no numbers.
    const ZERO: u64;

    /// The sum with the product of `x` and `y` added to it.
    fn add_product(sum: u64, x: u64, y: u64) -> u64
        ensures { result ≡ plus sum (times x y) };

    /// The same for each of eight sums, with its own `y`.
    fn add_products(sums: u64x8, x: u64, ys: u64x8) -> u64x8
        ensures { result ≡ zip2 (λ sum y. plus sum (times x y)) sums ys };
}

/// Sums and products modulo 2^64.
pub(crate) struct Wrapping;

impl Semiring for Wrapping {
    ghost plus = { fold_of Add };

    ghost times = { λ x y. x * y };

    ghost ZERO = { 0 };

    const ZERO: u64 = 0;

    #[inline(always)]
    fn add_product(sum: u64, x: u64, y: u64) -> u64 {
        sum.wrapping_add(x.wrapping_mul(y))
    }

    #[inline(always)]
    fn add_products(sums: u64x8, x: u64, ys: u64x8) -> u64x8 {
        sums + u64x8::splat(x) * ys
    }
}

/// The lesser for the sum, and the sum that stops at 2^64-1 for the product.
pub(crate) struct Tropical;

impl Semiring for Tropical {
    ghost plus = { fold_of Min };

    ghost times = { satadd_of };

    ghost ZERO = { 2 ^ 64 - 1 };

    const ZERO: u64 = u64::MAX;

    #[inline(always)]
    fn add_product(sum: u64, x: u64, y: u64) -> u64 {
        sum.min(x.saturating_add(y))
    }

    #[inline(always)]
    fn add_products(sums: u64x8, x: u64, ys: u64x8) -> u64x8 {
        sums.simd_min(u64x8::splat(x).saturating_add(ys))
    }
}

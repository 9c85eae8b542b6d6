// Words as rows of bit fields.
ghost use Rattle.std.specs.Prelude.{◌≡◌, ◌+◌, ◌*◌, ◌/◌, ◌%◌, ◌^◌, ◌<◌};

/// The word with `low` in its lowest `width` bits and `high` above them.
#[inline(always)]
pub(crate) fn joined(low: u64, width: u32, high: u64) -> u64
    requires below_64 { width < 64 }
    requires low_fits { low < 2 ^ width }
    requires word_fits { low + 2 ^ width * high < 2 ^ 64 }
    ensures { result ≡ low + 2 ^ width * high }
{
    (high << width) | low
}

/// The lowest `width` bits of a word, and what stands above them.
#[inline(always)]
pub(crate) fn split(word: u64, width: u32) -> (u64, u64)
    requires { width < 64 }
    ensures low { result.0 ≡ word % 2 ^ width }
    ensures high { result.1 ≡ word / 2 ^ width }
{
    (word & ((1 << width) - 1), word >> width)
}

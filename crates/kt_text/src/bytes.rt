// Kinds of bytes, and how many of a kind come next.
ghost use Rattle.std.specs.Prelude.{◌≡◌, ◌≤◌, ◌^◌, length, MatchOption};
ghost use Rattle.std.specs.Char.{is_ascii_digit};
ghost use Rattle.std.specs.List.{list_all, prefix_len};
ghost use Rattle.kt_text.specs.Bytes.{is_blank, is_item_byte, is_letter, is_line_byte, is_pair, is_single, is_space, is_word_byte, value_of};

/// Space, tab, line feed or carriage return.
pub(crate) fn is_blank(byte: u8) -> bool
    ensures { result ≡ is_blank byte }
{
    b" \t\n\r".contains(&byte)
}

/// A blank that is no line feed.
pub(crate) fn is_space(byte: u8) -> bool
    ensures { result ≡ is_space byte }
{
    byte == b' ' || byte == b'\t' || byte == b'\r'
}

/// A letter or `_`.
pub(crate) fn is_letter(byte: u8) -> bool
    ensures { result ≡ is_letter byte }
{
    byte.is_ascii_alphabetic() || byte == b'_'
}

/// What may follow in a word.
fn is_word_byte(byte: u8) -> bool
    ensures { result ≡ is_word_byte byte }
{
    is_letter(byte) || byte.is_ascii_digit()
}

/// A sign of two bytes.
pub(crate) fn is_pair(first: u8, second: u8) -> bool
    ensures { result ≡ is_pair first second }
{
    (second == b'=' && b"=!<>".contains(&first)) || (first == b'.' && second == b'.')
}

/// A sign of one byte.
pub(crate) fn is_single(byte: u8) -> bool
    ensures { result ≡ is_single byte }
{
    b"{}()[],;=<>+-*/%".contains(&byte)
}

/// How many bytes of a word stand at the front.
pub(crate) fn word_length(text: &[u8]) -> usize
    ensures { result ≡ prefix_len is_word_byte text.now }
{
    text.iter().take_while(|byte| is_word_byte(**byte)).count()
}

/// How many digits stand at the front.
pub(crate) fn digits_length(text: &[u8]) -> usize
    ensures { result ≡ prefix_len is_ascii_digit text.now }
{
    text.iter().take_while(|byte| byte.is_ascii_digit()).count()
}

/// How many blanks stand at the front.
pub(crate) fn blanks_length(text: &[u8]) -> usize
    ensures value { result ≡ prefix_len is_blank text.now }
    ensures within { result ≤ length text.now }
{
    text.iter().take_while(|byte| is_blank(**byte)).count()
}

/// How many bytes stand before the first line feed, or in all.
pub(crate) fn line_length(text: &[u8]) -> usize
    ensures value { result ≡ prefix_len is_line_byte text.now }
    ensures within { result ≤ length text.now }
{
    text.iter().take_while(|byte| **byte != b'\n').count()
}

/// How many bytes other than blanks stand at the front.
pub(crate) fn item_length(text: &[u8]) -> usize
    ensures value { result ≡ prefix_len is_item_byte text.now }
    ensures within { result ≤ length text.now }
{
    text.iter().take_while(|byte| !is_blank(**byte)).count()
}

/// Whether all bytes are digits.
pub(crate) fn are_digits(text: &[u8]) -> bool
    ensures { result ≡ list_all is_ascii_digit text.now }
{
    text.iter().all(|byte| byte.is_ascii_digit())
}

/// The number that these digits write, if it is below 2^64.
pub(crate) fn value(digits: &[u8]) -> Option<u64>
    ensures { MatchOption result (2 ^ 64 ≤ value_of digits.now) (λ n. n ≡ value_of digits.now) }
{
    let mut n: u64 = 0;
    for digit in digits {
        n = n
            .checked_mul(10)?
            .checked_add(u64::from(digit.saturating_sub(b'0')))?;
    }
    Some(n)
}

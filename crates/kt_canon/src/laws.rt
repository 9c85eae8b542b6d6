//! Laws of the canonical text. The functions do nothing; their contracts are the laws.
ghost use Rattle.kt_canon.specs.Laws.{CanonicalIsRead, CanonicalIsText};

/// The canonical text of a program that some text has, but for places, is read as the same program but for places.
pub fn canonical_is_text()
    ensures { CanonicalIsText }
{}

/// The canonical text of a written program is a job of the same program but for places: it nests no deeper, and none of its
/// expressions is longer.
pub fn canonical_is_read()
    ensures { CanonicalIsRead }
{}

#[cfg(test)]
mod tests {
    use super::*;

    #[test]
    fn laws_have_callers() {
        canonical_is_text();
        canonical_is_read();
    }
}

//! Why a word is no hexadecimal text.
use thiserror::Error;

/// The first reason why a word is no hexadecimal text, as its sentence.
#[derive(Clone, Copy, Debug, PartialEq, Eq, Error)]
pub(crate) enum HexReason {
    #[error("the word is empty; hexadecimal text is pairs of digits, or `-` for no bytes")]
    Empty,
    #[error("hexadecimal text has no `0x` before it")]
    Prefix,
    #[error("hexadecimal text has no colons between its pairs of digits")]
    Colon,
    #[error("hexadecimal text has no spaces; give all digits as one word")]
    Space,
    #[error("only the digits 0-9 and A-F are allowed")]
    Digit,
    #[error("hexadecimal text has two digits for each byte, but the number of digits is odd")]
    Odd,
}

impl HexReason {
    /// Why a word that spells no bytes does not.
    pub(crate) fn of(word: &[u8]) -> HexReason {
        if word.is_empty() {
            HexReason::Empty
        } else if word.starts_with(b"0x") || word.starts_with(b"0X") {
            HexReason::Prefix
        } else if word.contains(&b':') {
            HexReason::Colon
        } else if word.contains(&b' ') {
            HexReason::Space
        } else if word.iter().all(|byte| byte.is_ascii_hexdigit()) {
            HexReason::Odd
        } else {
            HexReason::Digit
        }
    }
}

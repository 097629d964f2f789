//! The parts of what is printed.

/// A part of what is printed: bytes as they are, or a number in decimal digits.
#[derive(Clone, Copy, Debug)]
pub enum Part<'a> {
    Text(&'a [u8]),
    Number(u64),
}

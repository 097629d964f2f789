//! Why something is not handed out.

/// Why something is not handed out. It stays where it is, and can be asked for again.
#[derive(Clone, Copy, Debug, PartialEq, Eq)]
pub enum Withheld {
    /// There is none.
    Missing,
    /// It has so many bytes, and there is room for fewer.
    TooLong(usize),
    /// There is no memory for its text.
    NoMemory,
}

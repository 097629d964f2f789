//! Numbers that look drawn at random.

/// The number after this one.
pub(crate) fn following(number: u32) -> u32 {
    number.wrapping_mul(1_664_525).wrapping_add(1_013_904_223)
}

//! The checksum of a datagram.
ghost use Rattle.std.specs.Prelude.{◌≡◌, fold};
ghost use Rattle.at_ddp.specs.Sum.{added, written_sum, sum_of};

/// The checksum of these bytes, which is never 0.
#[tactic(auto, unfolding(crate::specs::Sum::sum_of))]
pub fn rotating_sum(bytes: &[u8]) -> u16
    ensures { result ≡ sum_of bytes.now }
{
    close_sum(add_to_sum(0, bytes))
}

/// The running sum after these bytes.
pub(crate) fn add_to_sum(sum: u16, bytes: &[u8]) -> u16
    ensures { result ≡ fold added sum bytes.now }
{
    bytes.iter().fold(sum, |sum, byte| {
        sum.wrapping_add(u16::from(*byte)).rotate_left(1)
    })
}

/// The checksum field for a running sum: 0 would mean that none was computed, so 0xFFFF is written.
pub(crate) fn close_sum(sum: u16) -> u16
    ensures { result ≡ written_sum sum }
{
    if sum == 0 { u16::MAX } else { sum }
}

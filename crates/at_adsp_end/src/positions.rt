//! Sequence numbers. They begin again at 0 after 2^32 - 1.
ghost use Rattle.std.specs.Prelude.{◌≡◌, ◌<◌, ◌+◌};
ghost use Rattle.at_adsp_end.specs.Positions.{wire};

/// Half of all sequence numbers.
const HALF: u32 = 0x8000_0000;

/// How far one number lies ahead of another; none if it is behind.
pub(crate) fn ahead(from: u32, to: u32) -> Option<u32>
    ensures { result ≡ wire.ahead from to }
{
    let distance = to.wrapping_sub(from);
    if distance < HALF {
        Some(distance)
    } else {
        None
    }
}

/// The number so far ahead of another.
pub(crate) fn number_after(from: u32, distance: u32) -> u32
    ensures { result ≡ wire.at (from + distance) }
{
    from.wrapping_add(distance)
}

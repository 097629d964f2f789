//! Which of two sequence numbers comes first, where numbers go round.
ghost use Rattle.std.specs.Prelude.{IsTrue, ◌↔◌};
ghost use Rattle.at_adsp_frame.specs.Order.{IsBefore};

/// Half of all sequence numbers.
const HALF: u32 = 0x8000_0000;

/// Whether one sequence number comes before another. Sequence numbers begin again at 0 after 2^32 - 1.
pub fn before(a: u32, b: u32) -> bool
    ensures { IsTrue result ↔ IsBefore a b }
{
    let distance = b.wrapping_sub(a);
    0 < distance && distance < HALF
}

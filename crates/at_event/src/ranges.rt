//! The bytes of a text are in the range of their type. The body only visits them.
ghost use Rattle.at_nbp.specs.Tuples.{IsString};

use at_atp_frame::ranges_of_bytes;
use at_ddp::Pascal;

pub(crate) fn ranges_of_text(text: &Pascal)
    ensures { IsString text.now }
{
    ranges_of_bytes(text.bytes());
}

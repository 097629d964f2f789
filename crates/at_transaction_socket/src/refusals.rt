//! How a refusal is reported.
ghost use Rattle.std.specs.Prelude.{◌≡◌, Option, false};
ghost use Rattle.at_event.specs.Outcomes.{refused_as};
ghost use Rattle.at_event.specs.Services.{is_asked};

use at_event::Report;
use std::alloc::Allocator;

/// The report of a refusal, or of out of memory if there is no number.
pub fn refused<A: Allocator>(number: Option<u8>) -> Report<A>
    ensures report { result ≡ refused_as number }
    ensures not_asked { is_asked result ≡ false }
{
    match number {
        Some(number) => Report::Refused(number),
        None => Report::NoMemory,
    }
}

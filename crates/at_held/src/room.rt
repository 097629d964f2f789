//! Room that a program gives for bytes.
ghost use Rattle.std.specs.Prelude.{◌≡◌, ◌≢◌, ℕ, List, Err, IfOk, IsOk};
ghost use Rattle.at_held.specs.Handing.{HandsText};
ghost use Rattle.at_held.specs.Rooms.{IsPlaced};

use crate::withheld::Withheld;
use std::alloc::AllocError;

/// Copies bytes to the start of some room, and returns how many. If there is not room for all, none is copied.
pub(crate) fn place(bytes: &[u8], room: &mut [u8]) -> Result<usize, Withheld>
    ensures { IsPlaced bytes.now room.old result room.new }
{
    let length = bytes.len();
    if length > room.len() {
        return Err(Withheld::TooLong(length));
    }
    room[..length].copy_from_slice(bytes);
    Ok(length)
}

/// Copies a text, unless there was no memory for it.
pub(crate) fn place_text(
    text: Result<Vec<u8>, AllocError>,
    room: &mut [u8],
) -> Result<usize, Withheld>
    ensures text { (bytes : List ℕ) → IfOk text (λ written. written.items ≡ bytes)
        → HandsText bytes room.old result room.new }
    ensures memory { IsOk text → result ≢ Err Withheld.NoMemory }
{
    match text {
        Ok(bytes) => place(&bytes, room),
        Err(_) => Err(Withheld::NoMemory),
    }
}

//! What every cable promises, so that nodes can be driven over any of them.
ghost use Rattle.std.specs.Prelude.{◌≡◌, ◌≤◌, ℕ, List, Option, Result, IfOk, IfSome, length};
ghost use Rattle.at_cable.specs.Calls.{IsCounted, received};
ghost use Rattle.at_cable.specs.declared.fault.CableFault.{CableFault as Fault};

use crate::fault::CableFault;

/// What carries datagrams between nodes. It may lose, repeat and reorder them, and a call of it may fail.
pub trait Cable {
    /// How many calls have failed.
    ghost failed: { Self → ℕ };

    /// What may come of a send: the cable before, the sender, the destination, the bytes, the answer, and the cable
    /// after.
    ghost sends: { Self → ℕ → ℕ → List ℕ → Result (Unit {0}) Fault → Self → Type 0 };

    /// What may come of a receive: the cable before, the node, how many bytes there is room for, the answer with the
    /// bytes that came, and the cable after.
    ghost receives: { Self → ℕ → ℕ → Result (Option (List ℕ)) Fault → Self → Type 0 };

    /// Sends a datagram from a node to another, or to every node if `to` is 255.
    fn send(&mut self, from: u8, to: u8, bytes: &[u8]) -> Result<(), CableFault>
        ensures { sends self.old from to bytes.now result self.new };

    /// Takes a datagram that waits for a node, if one does. Its bytes go to the start of the buffer, and their number
    /// is returned; what doesn't fit is lost.
    fn receive(&mut self, node: u8, buffer: &mut [u8]) -> Result<Option<usize>, CableFault>
        ensures answer { receives self.old node (length buffer.old) (received result buffer.new) self.new }
        ensures within { IfOk result (λ o. IfSome o (λ count. count ≤ length buffer.new)) };

    /// How many calls have failed, up to the last number that a `u64` holds.
    fn failures(&self) -> u64
        ensures { result ≡ failed self.now };

    // An answer is an error exactly if the count of failures rose in the call or stood at its end.
    ghost send_is_counted: { (before : Self) (from to : ℕ) (bytes : List ℕ) (answer : Result (Unit {0}) Fault)
        (after : Self) → sends before from to bytes answer after → IsCounted (failed before) answer (failed after) };

    ghost receive_is_counted: { (before : Self) (node room : ℕ) (answer : Result (Option (List ℕ)) Fault) (after : Self)
        → receives before node room answer after → IsCounted (failed before) answer (failed after) };
}

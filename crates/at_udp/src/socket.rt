//! What every socket of a cable promises.
ghost use Rattle.std.specs.Prelude.{◌≤◌, ℕ, List, Result, IfOk, length};
ghost use Rattle.std.specs.declared.io.Error.{Error as Fault};
ghost use Rattle.at_udp.specs.Answers.{got};

use std::io;
use std::net::Net;

/// A UDP socket at a port of 127.0.0.1, which no other machine reaches. No call of it waits.
pub trait Socket: Drop {
    /// What may come of binding: the port of 127.0.0.1, and the answer.
    ghost binds: { ℕ → Result Self Fault → Type 0 };

    /// What may come of a send: the socket before, the bytes, the port of 127.0.0.1 that they go to, the answer, and
    /// the socket after.
    ghost sends: { Self → List ℕ → ℕ → Result ℕ Fault → Self → Type 0 };

    /// What may come of a receive: the socket before, how many bytes there is room for, the answer with the bytes that
    /// came, and the socket after.
    ghost receives: { Self → ℕ → Result (List ℕ) Fault → Self → Type 0 };

    /// Binds a socket at a port of 127.0.0.1.
    fn bind<R: Net>(net: &R, port: u16) -> io::Result<Self>
        ensures { binds port result };

    /// Sends one datagram to a port of 127.0.0.1.
    fn send(&mut self, bytes: &[u8], port: u16) -> io::Result<usize>
        ensures { sends self.old bytes.now port result self.new };

    /// Takes a datagram that waits, and returns how many bytes of it are at the start of the buffer. If none waits, the
    /// error is that it would block.
    fn receive(&mut self, buffer: &mut [u8]) -> io::Result<usize>
        ensures answer { receives self.old (length buffer.old) (got result buffer.new) self.new }
        ensures within { IfOk result (λ count. count ≤ length buffer.new) };
}

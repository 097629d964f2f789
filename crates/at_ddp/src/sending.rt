//! What a socket does with an outbox: it names itself, makes room, and sends.
ghost use Rattle.std.specs.Prelude.{◌≡◌, ℕ, ◌+◌, ◌≤◌, List, ◌∷◌, [], ◌++◌, length, OnOk, OnErr, IsOk};
ghost use Rattle.at_ddp.specs.Sending.{Sends, HasRoomFor, HasRoomForData, HasRoomToSend};
ghost use Rattle.at_ddp.specs.declared.address.Address.{Address as Destination};

use crate::address::Address;
use crate::datagram::{HEADER_LEN, header_of};
use crate::outbox::Outbox;
use std::alloc::{AllocError, Allocator};

impl<A: Allocator> Outbox<A> {
    /// Sets the socket that sends from now on, and the number of its protocol.
    pub fn send_from(&mut self, socket: Address, kind: u8)
        ensures items { self.new.items ≡ self.old.items }
        ensures from { self.new.from ≡ socket }
        ensures kind { self.new.kind ≡ kind }
        ensures room { self.new.room ≡ self.old.room }
    {
        self.from = socket;
        self.kind = kind;
    }

    /// Appends a finished datagram with at most 586 bytes of data. The error is out of memory.
    pub fn push(&mut self, to: Address, bytes: &[u8]) -> Result<(), AllocError>
        requires { length bytes.now ≤ 586 }
        ensures ok { OnOk result (Sends self.old self.new ((to, bytes.now) ∷ [])) }
        ensures err { OnErr result (Sends self.old self.new []) }
        ensures kept { OnErr result ((n size : ℕ) → HasRoomFor self.old n size → HasRoomFor self.new n size) }
        ensures kept_data { OnErr result ((n data_ : ℕ) → HasRoomForData self.old n data_
            → HasRoomForData self.new n data_) }
        ensures room { (n size : ℕ) → HasRoomFor self.old (n + 1) size → length bytes.now ≤ size → IsOk result
            × HasRoomFor self.new n size }
        ensures rest { (rest : List (Destination × List ℕ)) → HasRoomToSend self.old ((to, bytes.now) ∷ rest)
            → IsOk result × HasRoomToSend self.new rest }
    {
        self.push_parts(to, bytes, &[])
    }

    /// Appends a finished datagram with at most 586 bytes of data, which come in two parts. The error is out of memory.
    pub fn push_parts(&mut self, to: Address, front: &[u8], back: &[u8]) -> Result<(), AllocError>
        requires { length front.now + length back.now ≤ 586 }
        ensures ok { OnOk result (Sends self.old self.new ((to, front.now ++ back.now) ∷ [])) }
        ensures err { OnErr result (Sends self.old self.new []) }
        ensures kept { OnErr result ((n size : ℕ) → HasRoomFor self.old n size → HasRoomFor self.new n size) }
        ensures kept_data { OnErr result ((n data_ : ℕ) → HasRoomForData self.old n data_
            → HasRoomForData self.new n data_) }
        ensures room { (n size : ℕ) → HasRoomFor self.old (n + 1) size → length front.now + length back.now ≤ size
            → IsOk result × HasRoomFor self.new n size }
        ensures rest { (rest : List (Destination × List ℕ))
            → HasRoomToSend self.old ((to, front.now ++ back.now) ∷ rest) → IsOk result × HasRoomToSend self.new rest }
    {
        let header = header_of(to, self.from, self.kind, front, back);
        self.post(to.node, &header, front, back)
    }

    /// Makes room for `pushes` pushes of at most `size` bytes of data each, which then cannot run out of memory.
    pub fn room(&mut self, pushes: u32, size: usize) -> Result<(), AllocError>
        requires { size ≤ 586 }
        ensures ok { OnOk result (HasRoomFor self.new pushes size) }
        ensures stays { Sends self.old self.new [] }
        ensures kept { (n len : ℕ) → HasRoomFor self.old n len → HasRoomFor self.new n len }
        ensures succeeds { HasRoomFor self.old pushes size → IsOk result }
    {
        let total = pushes as usize * (HEADER_LEN + size);
        self.reserve(pushes, total)
    }

    /// Makes room for `pushes` pushes with `data_` bytes of data in all, which then cannot run out of memory.
    pub fn room_for_data(&mut self, pushes: u32, data_: u32) -> Result<(), AllocError>
        ensures ok { OnOk result (HasRoomForData self.new pushes data_) }
        ensures stays { Sends self.old self.new [] }
        ensures kept { (n len : ℕ) → HasRoomForData self.old n len → HasRoomForData self.new n len }
        ensures succeeds { HasRoomForData self.old pushes data_ → IsOk result }
    {
        let bytes = pushes as usize * HEADER_LEN + data_ as usize;
        self.reserve(pushes, bytes)
    }
}

//! One packet of an answer, which owns its data. A `Frame` only borrows what it carries.
ghost use Rattle.std.specs.Prelude.{◌≡◌, IfOk};
ghost use Rattle.at_atp_frame.specs.Packets.{AreWords};

use crate::words::ranges_of_bytes;
use at_ddp::Bytes;
use std::alloc::{AllocError, Allocator, Global};
use std::marker::Model;

/// One packet of an answer: its four user bytes, and its data.
#[derive(Drop)]
pub struct Packet<A: Allocator = Global> {
    user: [u8; 4],
    data_: Bytes<A>,
}

impl<A: Allocator> Model for Packet<A> {
    ghost use Rattle.at_atp_frame.specs.Packets.{Packet as Parts};

    ghost Value = { Parts };

    ghost view = { λ p. record { user = p.user; data_ = p.data_ } };
}

impl<A: Allocator> Packet<A> {
    pub fn new(user: [u8; 4], data_: Bytes<A>) -> Packet<A>
        ensures { result ≡ record { user = user; data_ = data_ } }
    {
        Packet { user, data_ }
    }

    pub fn user(&self) -> [u8; 4]
        ensures { result ≡ self.now.user }
    {
        self.user
    }

    pub fn data_(&self) -> &[u8]
        ensures { result.now ≡ self.now.data_ }
    {
        self.data_.as_slice()
    }

    /// A copy of the packet.
    pub fn copy(&self, alloc: A) -> Result<Packet<A>, AllocError>
        ensures { IfOk result (λ p. p ≡ self.now) }
    {
        Ok(Packet {
            user: self.user,
            data_: Bytes::copy_of(alloc, self.data_())?,
        })
    }

    /// Every byte of the packet is under 256. The body does nothing at run time.
    pub fn ranges(&self)
        ensures { AreWords self.now }
    {
        ranges_of_bytes(&self.user);
        let bytes = &self.data_;
        ranges_of_bytes(bytes.as_slice());
    }
}

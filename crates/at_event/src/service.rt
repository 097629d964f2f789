//! The program behind a node's service socket, as a trait, and a service that leaves each answer for later.
ghost use Rattle.std.specs.Prelude.{◌≡◌, ℕ, List, IfOk, OnErr};
ghost use Rattle.at_atp_responder.specs.declared.reception.Key.{Key as Asker};
ghost use Rattle.at_event.specs.Services.{IsReply};
ghost use Rattle.at_event.specs.declared.service.Reply.{Reply as Said};
ghost use Rattle.at_event.specs.declared.service.Reply.TheVariants.{Later};

use at_atp_frame::Packet;
use at_atp_responder::Key;
use at_ddp::Listed;
use std::alloc::{AllocError, Allocator, Global};

/// What a service replies to a request.
#[derive(Drop)]
pub enum Reply<A: Allocator = Global> {
    /// The answer comes now: 1 to 8 packets with at most 578 bytes of data each.
    Now(Listed<Packet<A>, A>),
    /// The answer comes later, by a call of the node (`Call::Answer`).
    Later,
}

/// The program behind a node's service socket, which answers requests.
pub trait Service<A: Allocator> {
    /// What may come of a request: the service before it, the request's key, user bytes and data, the reply, and the
    /// service after it.
    ghost serves: { Self → Asker → List ℕ → List ℕ → Said A → Self → Type 0 };

    /// Takes a new request. The error is out of memory, and it leaves the service as it was.
    fn serve(&mut self, key: Key, user: [u8; 4], bytes: &[u8]) -> Result<Reply<A>, AllocError>
        ensures served { IfOk result (λ reply. serves self.old key user bytes.now reply self.new) }
        ensures lawful { IfOk result (λ reply. IsReply reply) }
        ensures unchanged { OnErr result (self.new ≡ self.old) };
}

/// A service that replies `Later` to every request.
#[derive(Clone, Copy, Debug, PartialEq, Eq)]
pub struct Deferring;

impl<A: Allocator> Service<A> for Deferring {
    ghost serves = { λ before key user bytes said after. said ≡ Later };

    fn serve(&mut self, _key: Key, _user: [u8; 4], _bytes: &[u8]) -> Result<Reply<A>, AllocError> {
        Ok(Reply::Later)
    }
}

//! The packets of an end.
ghost use Rattle.std.specs.Prelude.{◌≡◌, ◌≤◌, List, ◌∷◌, [], length, false, OnOk, OnErr, IsOk};
ghost use Rattle.at_ddp.specs.Sending.{Sends};
ghost use Rattle.at_adsp_frame.specs.Segments.{Content, data_of, part};
ghost use Rattle.at_adsp_end.specs.Ends.{SendsTo, acknowledging, answering, asking, confirming, control, free, id_of};
ghost use Rattle.at_adsp_end.specs.Ends.{packet};
ghost use Rattle.at_adsp_end.specs.Loads.{HasRoomTo};
ghost use Rattle.at_adsp_end.specs.Positions.{wire};

use crate::end::End;
use at_adsp_frame::{Body, OpenKind, Segment, send};
use at_ddp::Outbox;
use std::alloc::{AllocError, Allocator};

impl<A: Allocator> End<A> {
    // How many more items can come.
    pub(crate) fn free(&self) -> u16
        ensures { result ≡ free self.now }
    {
        (self.unread.capacity() - self.unread.len()) as u16
    }

    // Sends a packet with this number.
    pub(crate) fn send(
        &self,
        first: u32,
        ack: bool,
        body: Body<'_>,
        out: &mut Outbox<A>,
    ) -> Result<(), AllocError>
        requires { length (data_of (part body)) ≤ 572 }
        ensures ok { OnOk result (SendsTo out.old out.new self.now.asked
            (packet self.now first ack (part body.entry) ∷ [])) }
        ensures err { OnErr result (Sends out.old out.new []) }
        ensures room { (more : List Content)
            → HasRoomTo out.old self.now.asked (packet self.now first ack (part body.entry) ∷ more)
            → IsOk result × HasRoomTo out.new self.now.asked more }
    {
        let segment = Segment {
            source: self.id,
            first,
            next: self.received,
            window: self.free(),
            ack,
            body,
        };
        send(out, self.asked, &segment)
    }

    // Sends a packet without data.
    pub(crate) fn send_control(
        &self,
        ack: bool,
        body: Body<'_>,
        out: &mut Outbox<A>,
    ) -> Result<(), AllocError>
        requires { length (data_of (part body)) ≤ 572 }
        ensures ok { OnOk result (SendsTo out.old out.new self.now.asked
            (control wire self.now ack (part body.entry) ∷ [])) }
        ensures err { OnErr result (Sends out.old out.new []) }
        ensures room { (more : List Content)
            → HasRoomTo out.old self.now.asked (control wire self.now ack (part body.entry) ∷ more)
            → IsOk result × HasRoomTo out.new self.now.asked more }
    {
        self.send(self.outgoing.next_unsent(), ack, body, out)
    }

    /// Sends the request for a connection. The error is out of memory.
    pub fn ask(&self, out: &mut Outbox<A>) -> Result<(), AllocError>
        ensures ok { OnOk result (SendsTo out.old out.new self.now.asked (asking self.now ∷ [])) }
        ensures err { OnErr result (Sends out.old out.new []) }
        ensures room { (more : List Content) → HasRoomTo out.old self.now.asked (asking self.now ∷ more)
            → IsOk result × HasRoomTo out.new self.now.asked more }
    {
        let segment = Segment {
            source: self.id,
            first: 0,
            next: 0,
            window: self.free(),
            ack: false,
            body: Body::Open {
                kind: OpenKind::Request,
                dest: 0,
            },
        };
        send(out, self.asked, &segment)
    }

    fn remote_id(&self) -> u16
        ensures { result ≡ id_of self.now.remote }
    {
        match &self.remote {
            None => 0,
            Some(remote) => remote.id,
        }
    }

    /// Sends the answer to a request. The error is out of memory.
    pub fn answer(&self, out: &mut Outbox<A>) -> Result<(), AllocError>
        ensures ok { OnOk result (SendsTo out.old out.new self.now.asked (answering wire self.now ∷ [])) }
        ensures err { OnErr result (Sends out.old out.new []) }
        ensures room { (more : List Content) → HasRoomTo out.old self.now.asked (answering wire self.now ∷ more)
            → IsOk result × HasRoomTo out.new self.now.asked more }
    {
        let body = Body::Open {
            kind: OpenKind::RequestAndAcknowledgement,
            dest: self.remote_id(),
        };
        self.send_control(false, body, out)
    }

    /// Sends the acknowledgement of such an answer. The error is out of memory.
    pub fn confirm(&self, out: &mut Outbox<A>) -> Result<(), AllocError>
        ensures ok { OnOk result (SendsTo out.old out.new self.now.asked (confirming wire self.now ∷ [])) }
        ensures err { OnErr result (Sends out.old out.new []) }
        ensures room { (more : List Content) → HasRoomTo out.old self.now.asked (confirming wire self.now ∷ more)
            → IsOk result × HasRoomTo out.new self.now.asked more }
    {
        let body = Body::Open {
            kind: OpenKind::Acknowledgement,
            dest: self.remote_id(),
        };
        self.send_control(false, body, out)
    }

    // Sends an acknowledgement of what came.
    pub(crate) fn acknowledge(&self, out: &mut Outbox<A>) -> Result<(), AllocError>
        ensures ok { OnOk result (SendsTo out.old out.new self.now.asked (acknowledging wire self.now ∷ [])) }
        ensures err { OnErr result (Sends out.old out.new []) }
        ensures room { (more : List Content) → HasRoomTo out.old self.now.asked (acknowledging wire self.now ∷ more)
            → IsOk result × HasRoomTo out.new self.now.asked more }
    {
        self.send_control(false, Body::Probe, out)
    }
}

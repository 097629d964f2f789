//! Which end a segment is for. `openings.rt` has what opens a connection; all else is the end's own.
ghost use Rattle.std.specs.Prelude.{◌≡◌, IsOk, None};
ghost use Rattle.at_ddp.specs.Sending.{HasRoomToSend};
ghost use Rattle.at_adsp_frame.specs.Segments.{content};
ghost use Rattle.at_adsp_end.specs.Ends.{spelled_all};
ghost use Rattle.at_adsp_end.specs.Positions.{wire};
ghost use Rattle.at_adsp_ends.specs.Moves.{IsTaken};
ghost use Rattle.at_adsp_ends.specs.Receiving.{made_id, received, segment_came};
ghost use Rattle.at_adsp_ends.specs.Tables.{by_remote};

use crate::ends::Ends;
use at_adsp_end::{EndChange, Remote};
use at_adsp_frame::{Body, OpenKind, Segment};
use at_ddp::{Address, Outbox};
use std::alloc::{AllocError, Allocator};

impl<A: Allocator + Copy> Ends<A> {
    /// Takes a segment that came from this address. The error is out of memory: only what is sent takes memory, and an
    /// end that is made.
    pub fn receive(
        &mut self,
        from: Address,
        segment: &Segment<'_>,
        out: &mut Outbox<A>,
    ) -> Result<EndChange, AllocError>
        ensures taken { IsTaken (received wire self.old from (content segment.now)) result self.old self.new out.old
            out.new }
        ensures memory { made_id (received wire self.old from (content segment.now)).answer ≡ None
            → HasRoomToSend out.old (spelled_all (received wire self.old from (content segment.now)).sent)
            → IsOk result }
    {
        let remote = Remote {
            address: from,
            id: segment.source,
        };
        let Body::Open { kind, dest } = segment.body else {
            return self.hear_segment(remote, segment, out);
        };
        match kind {
            OpenKind::Request => self.hear_request(remote, out),
            OpenKind::Acknowledgement => self.hear_ack(remote, dest, segment, out),
            OpenKind::RequestAndAcknowledgement => self.hear_answer(remote, dest, segment, out),
            OpenKind::Denial => Ok(self.hear_denial(from, dest)),
        }
    }

    /// The identifier of the end that a segment from this address will make, if memory does not run out.
    pub fn made_by(&self, from: Address, segment: &Segment<'_>) -> Option<u16>
        ensures { result ≡ made_id (received wire self.now from (content segment.now)).answer }
    {
        let remote = Remote {
            address: from,
            id: segment.source,
        };
        match segment.body {
            Body::Open {
                kind: OpenKind::Request,
                ..
            } => self.made_by_request(remote),
            _ => None,
        }
    }

    // A segment that opens nothing.
    fn hear_segment(
        &mut self,
        remote: Remote,
        segment: &Segment<'_>,
        out: &mut Outbox<A>,
    ) -> Result<EndChange, AllocError>
        ensures taken { IsTaken (segment_came wire self.old (content segment.now) (by_remote self.old remote)) result
            self.old self.new out.old out.new }
        ensures memory { HasRoomToSend out.old
            (spelled_all (segment_came wire self.old (content segment.now) (by_remote self.old remote)).sent)
            → IsOk result }
    {
        let Some(index) = self.index_of_remote(remote) else {
            return Ok(EndChange::Ignored);
        };
        let end = self.ends.at(index);
        if !end.is_open() {
            return Ok(EndChange::Ignored);
        }
        let end = self.ends.at_mut(index);
        end.receive(segment, out)
    }
}

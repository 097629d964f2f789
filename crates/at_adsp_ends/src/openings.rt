//! The packets that open a connection.
ghost use Rattle.std.specs.Prelude.{◌≡◌, ◌==◌, ◌&&◌, ◌∷◌, [], not, IsOk, OnErr, OnOk, if◌then◌else◌, None};
ghost use Rattle.at_ddp.specs.Address.{same_address};
ghost use Rattle.at_ddp.specs.Sending.{HasRoomToSend, Sends};
ghost use Rattle.at_adsp_frame.specs.Segments.{content, spelled};
ghost use Rattle.at_adsp_end.specs.Ends.{denying, is_opening, spelled_all};
ghost use Rattle.at_adsp_end.specs.Positions.{wire};
ghost use Rattle.at_adsp_ends.specs.Moves.{IsTaken};
ghost use Rattle.at_adsp_ends.specs.Openings.{ack_came, answer_came, denial_came, room_for};
ghost use Rattle.at_adsp_ends.specs.Receiving.{any_request_came, made_id};
ghost use Rattle.at_adsp_ends.specs.Tables.{by_id, by_remote, next_id};

use crate::ends::{Ends, MAX_ENDS};
use crate::identifiers::following;
use crate::remotes::note;
use crate::standing::index_of;
use at_adsp_end::{End, EndChange, Remote};
use at_adsp_frame::{Body, OpenKind, Segment, send};
use at_ddp::{Address, Outbox};
use std::alloc::{AllocError, Allocator};

impl<A: Allocator + Copy> Ends<A> {
    // A request of this end.
    pub(crate) fn hear_request(
        &mut self,
        remote: Remote,
        out: &mut Outbox<A>,
    ) -> Result<EndChange, AllocError>
        ensures taken { IsTaken (any_request_came wire self.old remote (remote.id == 0)) result self.old self.new
            out.old out.new }
        ensures memory { made_id (any_request_came wire self.old remote (remote.id == 0)).answer ≡ None
            → HasRoomToSend out.old (spelled_all (any_request_came wire self.old remote (remote.id == 0)).sent)
            → IsOk result }
    {
        if remote.id == 0 {
            return Ok(EndChange::Ignored);
        }
        match self.end_of(remote) {
            None => self.answer_new(remote, out),
            Some(end) if end.answers_again() => {
                end.answer(out)?;
                Ok(EndChange::Again)
            }
            Some(_) => Ok(EndChange::Ignored),
        }
    }

    // The identifier of the end that a request of this end will make.
    pub(crate) fn made_by_request(&self, remote: Remote) -> Option<u16>
        ensures { result ≡ made_id (any_request_came wire self.now remote (remote.id == 0)).answer }
    {
        if remote.id == 0 || self.has_remote(remote.address, remote.id) {
            None
        } else {
            self.listening_id()
        }
    }

    // A request of an end that no end here has as its remote.
    fn answer_new(&mut self, remote: Remote, out: &mut Outbox<A>) -> Result<EndChange, AllocError>
        requires { by_remote self.old remote ≡ None }
        ensures taken { IsTaken (room_for wire self.old remote (if self.old.listening then next_id self.old else None))
            result self.old self.new out.old out.new }
        ensures memory { (if self.old.listening then next_id self.old else None) ≡ None
            → HasRoomToSend out.old ((remote.address, spelled (denying remote.id)) ∷ []) → IsOk result }
    {
        let Some(id) = self.listening_id() else {
            deny(remote, out)?;
            return Ok(EndChange::Turned);
        };
        let end = End::half(self.alloc, self.rooms, id, remote)?;
        self.ends.reserve()?;
        self.remotes.reserve(MAX_ENDS)?;
        end.answer(out)?;
        self.ends.push(id, end);
        note(&mut self.remotes, remote, id);
        self.next = following(id);
        Ok(EndChange::Made(id))
    }

    // The identifier that an end gets whose request is answered.
    fn listening_id(&self) -> Option<u16>
        ensures { result ≡ (if self.now.listening then next_id self.now else None) }
    {
        if self.listening { self.next_id() } else { None }
    }

    // An answer to the request of the end with this identifier.
    pub(crate) fn hear_answer(
        &mut self,
        remote: Remote,
        dest: u16,
        segment: &Segment<'_>,
        out: &mut Outbox<A>,
    ) -> Result<EndChange, AllocError>
        ensures taken { IsTaken (answer_came wire self.old remote (content segment.now) (by_remote self.old remote)
            (by_id self.old dest)) result self.old self.new out.old out.new }
        ensures memory { HasRoomToSend out.old (spelled_all (answer_came wire self.old remote (content segment.now)
            (by_remote self.old remote) (by_id self.old dest)).sent) → IsOk result }
    {
        let is_taken = self.has_remote(remote.address, remote.id);
        let Some(index) = index_of(&self.ends, dest) else {
            return Ok(EndChange::Ignored);
        };
        let end = self.ends.at(index);
        if is_answered(end, remote.address, is_taken) {
            let end = self.ends.at_mut(index);
            let step = end.open(remote, segment, out)?;
            note(&mut self.remotes, remote, dest);
            return Ok(step);
        }
        let end = self.ends.at(index);
        if !end.confirms_again(remote) {
            return Ok(EndChange::Ignored);
        }
        end.confirm(out)?;
        Ok(EndChange::Again)
    }

    // An acknowledgement of the answer of the end with this identifier.
    pub(crate) fn hear_ack(
        &mut self,
        remote: Remote,
        dest: u16,
        segment: &Segment<'_>,
        out: &mut Outbox<A>,
    ) -> Result<EndChange, AllocError>
        ensures taken { IsTaken (ack_came wire self.old remote (content segment.now) (by_id self.old dest)) result
            self.old self.new out.old out.new }
        ensures memory { HasRoomToSend out.old
            (spelled_all (ack_came wire self.old remote (content segment.now) (by_id self.old dest)).sent)
            → IsOk result }
    {
        let Some(index) = index_of(&self.ends, dest) else {
            return Ok(EndChange::Ignored);
        };
        let end = self.ends.at(index);
        if !end.waits_for(remote) {
            return Ok(EndChange::Ignored);
        }
        let end = self.ends.at_mut(index);
        end.open_half(segment, out)
    }

    // A denial of the request of the end with this identifier.
    pub(crate) fn hear_denial(&mut self, from: Address, dest: u16) -> EndChange
        ensures answer { result ≡ (denial_came self.old from (by_id self.old dest)).answer }
        ensures state { self.new ≡ (denial_came self.old from (by_id self.old dest)).after }
    {
        let Some(index) = index_of(&self.ends, dest) else {
            return EndChange::Ignored;
        };
        let end = self.ends.at(index);
        if !end.asks(from) {
            return EndChange::Ignored;
        }
        self.remove_at(index);
        EndChange::Denied(dest)
    }
}

// Whether this end asked there, and no end has the remote yet that answers.
fn is_answered<A: Allocator>(end: &End<A>, address: Address, is_taken: bool) -> bool
    ensures { result ≡ (is_opening end.now.phase && same_address end.now.asked address && not is_taken) }
{
    end.asks(address) && !is_taken
}

// Denies the request of an end.
fn deny<A: Allocator>(remote: Remote, out: &mut Outbox<A>) -> Result<(), AllocError>
    ensures ok { OnOk result (Sends out.old out.new ((remote.address, spelled (denying remote.id)) ∷ [])) }
    ensures err { OnErr result (Sends out.old out.new []) }
    ensures room { HasRoomToSend out.old ((remote.address, spelled (denying remote.id)) ∷ []) → IsOk result }
{
    let segment = Segment {
        source: 0,
        first: 0,
        next: 0,
        window: 0,
        ack: false,
        body: Body::Open {
            kind: OpenKind::Denial,
            dest: remote.id,
        },
    };
    send(out, remote.address, &segment)
}

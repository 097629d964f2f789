//! Which timers of a node would do something now.
ghost use Rattle.std.specs.Prelude.{◌≡◌, ◌≢◌, ◌≤◌, ◌↔◌, ◌+◌, ◌++◌, [], length, option_map, drop, OnErr, OnOk, IsOk};
ghost use Rattle.std.specs.Prelude.{vec_capacity, vec_len};
ghost use Rattle.std.specs.List.{AllPairs, Contains, cons_option};
ghost use Rattle.at_atp_responder.specs.Keys.{AreApart};
ghost use Rattle.at_event.specs.declared.Timer.{Timer as Fired};
ghost use Rattle.at_node.specs.Nodes.{timed};
ghost use Rattle.at_node.specs.Timers.{Acts, Adds, lookups, release_of, releases, retries, ticks, timer_of};
ghost use Rattle.at_node.specs.Timers.{timers_of};
ghost use Rattle.at_zone_socket.specs.AtpTimers.{records_at};

use crate::node::Node;
use at_adsp_ends::Tick;
use at_atp::Key;
use at_event::{NameTimer, StreamTimer, Timer, TransactionTimer};
use at_name_socket::NameSocket;
use at_stream_socket::StreamSocket;
use at_transaction_socket::SERVICE_SOCKET;
use at_zone_socket::{AtpPart, ZONE_SOCKET};
use std::alloc::{AllocError, Allocator};

impl<A: Allocator + Copy> Node<A> {
    /// Adds the timers that would do something now to the end of a list, each once: a retry for each open transaction;
    /// a release for each record of a request that was answered or released; a lookup for each that is open; a resend
    /// for each end that has something to send again; and a probe for each end that is not closed. These are at most
    /// 200. The error is out of memory.
    pub fn timers(&self, timers: &mut Vec<Timer, A>) -> Result<(), AllocError>
        ensures list { OnOk result (timers.new.items ≡ timers.old.items ++ timers_of self.now) }

        // Exactly those that are not refused, and change the node or send something.
        ensures acts { (t : Fired) → Contains (timers_of self.now) t ↔ Acts self.now (timed {A = A} self.now t) }
        ensures once { AllPairs (λ a b. a ≢ b) (timers_of self.now) }

        // Room for as many as there are is enough.
        ensures memory { vec_len timers.old + length (timers_of self.now) ≤ vec_capacity timers.old → IsOk result }
        ensures unchanged { OnErr result (timers.new.items ≡ timers.old.items) }
    {
        self.timers_act();
        self.timers_differ();
        let before = timers.as_slice().len();
        let listed = self.list_timers(timers);
        if listed.is_err() {
            timers.truncate(before);
        }
        listed
    }

    fn list_timers(&self, timers: &mut Vec<Timer, A>) -> Result<(), AllocError>
        ensures { Adds (timers_of self.now) result timers.old timers.new }
    {
        list_retries(&self.atp, 0, timers)?;
        list_releases(ZONE_SOCKET, &self.atp, 0, timers)?;
        list_releases(SERVICE_SOCKET, &self.atp, 0, timers)?;
        list_lookups(&self.names.socket, 0, timers)?;
        list_ticks(&self.streams, Tick::Retransmit, 0, timers)?;
        list_ticks(&self.streams, Tick::Probe, 0, timers)
    }

    // The timers of the list are those that act. The body only visits the parts.
    fn timers_act(&self)
        ensures { (t : Fired) → Contains (timers_of self.now) t ↔ Acts self.now (timed {A = A} self.now t) }
    {
        self.limits();
        self.keys_differ();
    }

    // No timer is in the list twice. The body only visits the parts.
    fn timers_differ(&self)
        ensures { AllPairs (λ a b. a ≢ b) (timers_of self.now) }
    {
        self.limits();
        self.keys_differ();
    }

    // No two records of a socket are of one request. The body only visits them.
    fn keys_differ(&self)
        ensures zones { AreApart self.now.atp.zones.zone_responder }
        ensures services { AreApart self.now.atp.transactions.service_responder }
    {
        self.atp.keys_differ();
    }
}

// Lists the retries of the open transactions from this place on.
fn list_retries<A: Allocator + Copy>(
    part: &AtpPart<A>,
    place: usize,
    timers: &mut Vec<Timer, A>,
) -> Result<(), AllocError>
    ensures { Adds (retries (drop place part.now.transactions.requester.standing)) result timers.old timers.new }
{
    if place >= part.open_count() {
        return Ok(());
    }
    let tid = part.number_at(place);
    list_one(
        Some(Timer::Transactions(TransactionTimer::Retry { tid })),
        timers,
    )?;
    list_retries(part, place + 1, timers)
}

// Lists the releases of the records of a socket from this place on.
fn list_releases<A: Allocator + Copy>(
    own: u8,
    part: &AtpPart<A>,
    place: usize,
    timers: &mut Vec<Timer, A>,
) -> Result<(), AllocError>
    ensures { Adds (releases own (drop place (records_at part.now own))) result timers.old timers.new }
{
    if place >= part.record_count(own) {
        return Ok(());
    }
    let key = part.expiring_at(own, place);
    list_one(releasing(own, key), timers)?;
    list_releases(own, part, place + 1, timers)
}

// Lists the timers of the open lookups from this place on.
fn list_lookups<A: Allocator + Copy>(
    socket: &NameSocket<A>,
    place: usize,
    timers: &mut Vec<Timer, A>,
) -> Result<(), AllocError>
    ensures { Adds (lookups (drop place socket.now.lookups.searches)) result timers.old timers.new }
{
    if place >= socket.open_count() {
        return Ok(());
    }
    let id = socket.id_at(place);
    list_one(Some(Timer::Names(NameTimer::Lookup { id })), timers)?;
    list_lookups(socket, place + 1, timers)
}

// Lists the timers for a tick of the ends from this place on.
fn list_ticks<A: Allocator + Copy>(
    streams: &StreamSocket<A>,
    tick: Tick,
    place: usize,
    timers: &mut Vec<Timer, A>,
) -> Result<(), AllocError>
    ensures { Adds (ticks tick (drop place streams.now.ends)) result timers.old timers.new }
{
    if place >= streams.end_count() {
        return Ok(());
    }
    let id = streams.heeding_at(place, tick);
    list_one(ticking(tick, id), timers)?;
    list_ticks(streams, tick, place + 1, timers)
}

// Lists a timer, if there is one.
fn list_one<A: Allocator>(
    timer: Option<Timer>,
    timers: &mut Vec<Timer, A>,
) -> Result<(), AllocError>
    ensures { Adds (cons_option timer []) result timers.old timers.new }
{
    if let Some(timer) = timer {
        timers.push(timer)?;
    }
    Ok(())
}

// The timer by which the record of a key goes.
fn releasing(own: u8, key: Option<Key>) -> Option<Timer>
    ensures { result ≡ option_map (release_of own) key }
{
    let key = key?;
    Some(Timer::Transactions(TransactionTimer::Release { own, key }))
}

// The timer for a tick of an end.
fn ticking(tick: Tick, id: Option<u16>) -> Option<Timer>
    ensures { result ≡ option_map (timer_of tick) id }
{
    let id = id?;
    Some(match tick {
        Tick::Retransmit => Timer::Streams(StreamTimer::Resend { id }),
        Tick::Probe => Timer::Streams(StreamTimer::Probe { id }),
    })
}

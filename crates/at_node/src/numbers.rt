//! Numbers: which one an input draws, which a record or an end here holds, and which a datagram carries.
ghost use Rattle.std.specs.Prelude.{◌≡◌, ◌↔◌, ℕ, Some, IfSome, option_map};
ghost use Rattle.std.specs.List.{Contains};
ghost use Rattle.at_atp_requester.specs.Requests.{next_number};
ghost use Rattle.at_ddp.specs.Protocols.{atp_kind, nbp_kind, adsp_kind};
ghost use Rattle.at_nbp.specs.Lookups.{next_id};
ghost use Rattle.at_adsp_ends.specs.Tables.{next_id as next_end};
ghost use Rattle.at_node.specs.Numbers.{Carries, CarriesNumber, Draws, DrawsBy, DrawsHearing, DrawsIt, draw_of};
ghost use Rattle.at_node.specs.Numbers.{end_drawn};
ghost use Rattle.at_node.specs.Numbers.{holds};
ghost use Rattle.at_node.specs.declared.numbers.Draw.{Draw as Drawn};
ghost use Rattle.at_node.specs.declared.numbers.Draw.TheVariants.{Conn, Lookup, Tid};
ghost use Rattle.at_packet.specs.Bodies.{IsBody, datagram_of};

use crate::node::Node;
use at_atp_frame::owner;
use at_event::{Call, Timer};
use at_packet::{AdspPacket, AtpPacket, Body, NbpPacket, Packet};
use std::alloc::{Allocator, Global};

/// A number that a node draws. It is not to be drawn again while a packet or a record has it, or an end that is
/// connected there.
#[derive(Clone, Copy, Debug, PartialEq, Eq, Hash)]
pub enum Draw {
    /// The number of a transaction.
    Tid(u16),
    /// The identifier of a lookup, which no record has.
    Lookup(u8),
    /// The connection identifier of the end of a stream.
    Conn(u16),
}

/// What comes to a node next.
#[derive(Clone, Copy)]
pub enum Input<'a, A: Allocator = Global> {
    Call(&'a Call<A>),
    Timer(Timer),
    Received(&'a Packet<'a>),
}

impl<A: Allocator + Copy> Node<A> {
    /// The number that the node will draw for this input, if memory does not run out.
    pub fn draw_of(&self, input: &Input<'_, A>) -> Option<Draw>
        ensures found { IfSome result (Draws self.now input.now) }
        ensures only { (draw : Drawn) → Draws self.now input.now draw → result ≡ Some draw }
    {
        match input {
            Input::Call(call) => self.draw_of_call(call),
            Input::Timer(_) => None,
            Input::Received(packet) => self.draw_of_received(packet),
        }
    }

    /// Whether this node holds a record of a request that has this number and came from `node`, or an end that is
    /// connected to the one with this identifier there.
    pub fn holds(&self, node: u8, draw: Draw) -> bool
        ensures { result ≡ holds self.now node draw }
    {
        match draw {
            Draw::Tid(tid) => self.atp.holds_number(node, tid),
            Draw::Lookup(_) => false,
            Draw::Conn(id) => self.streams.holds_number(node, id),
        }
    }

    fn draw_of_call(&self, call: &Call<A>) -> Option<Draw>
        ensures { result ≡ draw_of self.now call.now }
    {
        match call {
            Call::Transactions(call) => self.draw_of_transactions(call),
            Call::Zones(call) => self.draw_of_zones(call),
            Call::Names(call) => self.draw_of_names(call),
            Call::Streams(call) => self.draw_of_streams(call),
            _ => None,
        }
    }

    fn draw_of_received(&self, packet: &Packet<'_>) -> Option<Draw>
        ensures found { IfSome result (λ draw. DrawsHearing self.now packet.now draw) }
        ensures only { (draw : Drawn) → DrawsHearing self.now packet.now draw → result ≡ Some draw }
    {
        match packet.body() {
            Ok(body) => self.draw_of_body(body),
            Err(_) => None,
        }
    }

    // A page that makes the next one be asked for draws a number, and so does a request for a connection that makes an
    // end. No other datagram does.
    fn draw_of_body(&self, body: &Body<'_>) -> Option<Draw>
        requires { IsBody body.now }
        ensures found { IfSome result (λ draw. DrawsIt self.now (datagram_of body.now) draw) }
        ensures only { (draw : Drawn) → DrawsIt self.now (datagram_of body.now) draw → result ≡ Some draw }
    {
        let datagram = body.datagram();
        if !self.seat.is_for(datagram.kind, datagram.to) {
            return None;
        }
        match body {
            Body::Atp(packet) => self.draw_of_response(packet),
            Body::Adsp(packet) => self.draw_of_segment(packet),
            _ => None,
        }
    }

    fn draw_of_response(&self, packet: &AtpPacket<'_>) -> Option<Draw>
        requires { packet.now.kind ≡ atp_kind }
        ensures found { IfSome result (λ draw. DrawsBy self.now packet.now draw) }
        ensures only { (draw : Drawn) → DrawsBy self.now packet.now draw → result ≡ Some draw }
    {
        match self.atp.turned_by(self.seat, packet) {
            Some(tid) => Some(Draw::Tid(tid)),
            None => None,
        }
    }

    fn draw_of_segment(&self, packet: &AdspPacket<'_>) -> Option<Draw>
        requires { packet.now.kind ≡ adsp_kind }
        ensures found { IfSome result (λ draw. DrawsBy self.now packet.now draw) }
        ensures only { (draw : Drawn) → DrawsBy self.now packet.now draw → result ≡ Some draw }
    {
        match self.streams.made_by(packet) {
            Some(id) => Some(Draw::Conn(id)),
            None => None,
        }
    }

    pub(crate) fn next_draw(&self) -> Option<Draw>
        ensures { result ≡ option_map (λ tid. Tid tid) (next_number self.now.atp.transactions.requester) }
    {
        let tid = self.atp.next_tid()?;
        Some(Draw::Tid(tid))
    }

    pub(crate) fn next_end(&self) -> Option<Draw>
        ensures { result ≡ option_map (λ id. Conn id) (next_end self.now.streams) }
    {
        let id = self.streams.next_id()?;
        Some(Draw::Conn(id))
    }

    pub(crate) fn next_lookup(&self) -> Option<Draw>
        ensures { result ≡ option_map (λ id. Lookup id) (next_id self.now.names.lookups) }
    {
        let id = self.names.socket.next_id()?;
        Some(Draw::Lookup(id))
    }
}

/// The numbers that a datagram carries, each with the node that draws it. There are none if the received bytes begin
/// with no datagram, or if its data begins with no packet.
pub fn carried_in(packet: &Packet<'_>) -> [Option<(u8, Draw)>; 2]
    ensures { (node : ℕ) (draw : Drawn) → Contains result (Some (node, draw)) ↔ Carries packet.now node draw }
{
    match packet.body() {
        Ok(body) => numbers_in(body),
        Err(_) => [None, None],
    }
}

// The numbers in the packet of a datagram, and the nodes that draw them.
fn numbers_in(body: &Body<'_>) -> [Option<(u8, Draw)>; 2]
    requires { IsBody body.now }
    ensures { (node : ℕ) (draw : Drawn) → Contains result (Some (node, draw))
        ↔ CarriesNumber (datagram_of body.now) node draw }
{
    match body {
        Body::Atp(packet) => [tid_in(packet), None],
        Body::Nbp(packet) => [lookup_in(packet), None],
        Body::Adsp(packet) => ends_in(packet),
        _ => [None, None],
    }
}

// The identifiers in a datagram of ADSP, and the nodes that draw them.
fn ends_in(packet: &AdspPacket<'_>) -> [Option<(u8, Draw)>; 2]
    requires { packet.now.kind ≡ adsp_kind }
    ensures { (node : ℕ) (draw : Drawn) → Contains result (Some (node, draw)) ↔ CarriesNumber packet.now node draw }
{
    let (source, dest) = at_stream_socket::carried(packet);
    [end_drawn(source), end_drawn(dest)]
}

// The identifier of an end as a number that its node draws.
fn end_drawn(id: Option<(u8, u16)>) -> Option<(u8, Draw)>
    ensures { result ≡ end_drawn id }
{
    let (node, id) = id?;
    Some((node, Draw::Conn(id)))
}

// The transaction number in a datagram of ATP.
fn tid_in(packet: &AtpPacket<'_>) -> Option<(u8, Draw)>
    requires { packet.now.kind ≡ atp_kind }
    ensures found { IfSome result (λ r. CarriesNumber packet.now r.0 r.1) }
    ensures only { (node : ℕ) (draw : Drawn) → CarriesNumber packet.now node draw → result ≡ Some (node, draw) }
{
    let datagram = packet.datagram();
    let Ok(frame) = packet.frame() else {
        return None;
    };
    let owner = owner(datagram.from, datagram.to, &frame);
    Some((owner.node, Draw::Tid(frame.tid())))
}

// The identifier of a lookup in a datagram of NBP.
fn lookup_in(packet: &NbpPacket<'_>) -> Option<(u8, Draw)>
    requires { packet.now.kind ≡ nbp_kind }
    ensures found { IfSome result (λ r. CarriesNumber packet.now r.0 r.1) }
    ensures only { (node : ℕ) (draw : Drawn) → CarriesNumber packet.now node draw → result ≡ Some (node, draw) }
{
    let (node, id) = at_name_socket::carried(packet)?;
    Some((node, Draw::Lookup(id)))
}

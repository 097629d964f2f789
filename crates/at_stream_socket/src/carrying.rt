//! Whose identifiers a segment carries. By them a segment that comes too late is recognized.
ghost use Rattle.std.specs.Prelude.{◌≡◌, ◌↔◌, ◌∷◌, [], ℕ, Some, None, if◌then◌else◌, ◌==◌};
ghost use Rattle.std.specs.List.{Contains};
ghost use Rattle.at_adsp_frame.specs.Segments.{part};
ghost use Rattle.at_stream_socket.specs.Carrying.{Carries, dest_of};

use at_adsp_frame::Body;
use at_packet::AdspPacket;

/// The identifiers of the sender and of the destination that the segment in a datagram carries, each with the number of
/// the node that drew it: (node, identifier). There are none if the data is no segment. This needs no memory.
pub fn carried(packet: &AdspPacket<'_>) -> (Option<(u8, u16)>, Option<(u8, u16)>)
    ensures { (node id : ℕ) → Contains (result.0 ∷ result.1 ∷ []) (Some (node, id))
        ↔ Carries packet.now.from packet.now.to packet.now.data_ node id }
{
    let datagram = packet.datagram();
    match packet.segment() {
        Ok(segment) => (
            numbered(datagram.from.node, segment.source),
            numbered(datagram.to.node, dest_of(&segment.body)),
        ),
        Err(_) => (None, None),
    }
}

// An identifier of a node; 0 is none.
fn numbered(node: u8, id: u16) -> Option<(u8, u16)>
    ensures { result ≡ (if id == 0 then None else Some (node, id)) }
{
    if id == 0 { None } else { Some((node, id)) }
}

// The identifier that a segment gives its destination.
fn dest_of(body: &Body<'_>) -> u16
    ensures { result ≡ dest_of (part body.now) }
{
    match body {
        Body::Open { dest, .. } => *dest,
        _ => 0,
    }
}

//! The lines of the network and of its nodes, after their first word.
ghost use Rattle.std.specs.Prelude.{◌∷◌, codes};
ghost use Rattle.at_words.specs.Readings.{IsFound};
ghost use Rattle.at_words.specs.Words.{words_of};
ghost use Rattle.at_setup_lines.specs.SetupLines.{SaysNet, SaysNode, SaysPlace, SaysRooms};

use at_ddp::Pascal;
use at_setup::NodeSetup;
use at_words::{Words, node_number, positive, zone_name};

/// `net N`
pub(crate) fn net_of(mut words: Words<'_>) -> Option<u16>
    ensures { IsFound result (SaysNet (codes "net" ∷ words_of words.entry.rest.now)) }
{
    let net = positive(words.next()?)?;
    words.end()?;
    Some(net)
}

/// `node N [router] [zone TEXT] [rooms R S]`
pub(crate) fn node_of(mut words: Words<'_>) -> Option<NodeSetup>
    ensures { IsFound result (SaysNode (codes "node" ∷ words_of words.entry.rest.now)) }
{
    let node = node_number(words.next()?)?;
    let router = words.take_if(b"router");
    let (zone, receive_room, send_room) = place_of(words)?;
    Some(NodeSetup {
        node,
        router,
        zone,
        receive_room,
        send_room,
    })
}

// `[zone TEXT] [rooms R S]`
fn place_of(mut words: Words<'_>) -> Option<(Option<Pascal>, u16, u16)>
    ensures { IsFound result (λ p. SaysPlace (words_of words.entry.rest.now) p.0 p.1 p.2) }
{
    let zone = if words.take_if(b"zone") {
        Some(zone_name(words.next()?)?)
    } else {
        None
    };
    let (receive_room, send_room) = rooms_of(words)?;
    Some((zone, receive_room, send_room))
}

// `[rooms R S]`
fn rooms_of(mut words: Words<'_>) -> Option<(u16, u16)>
    ensures { IsFound result (λ p. SaysRooms (words_of words.entry.rest.now) p.0 p.1) }
{
    let rooms = if words.take_if(b"rooms") {
        (positive(words.next()?)?, positive(words.next()?)?)
    } else {
        (64, 64)
    };
    words.end()?;
    Some(rooms)
}

//! How a requester is named in a line.
ghost use Rattle.std.specs.Prelude.{◌≡◌, ◌≤◌, ◌+◌, ◌++◌, length};
ghost use Rattle.at_print.specs.Requesters.{key_text, net_text, other_net};

use crate::piece::{Piece, ROOM};
use at_atp::Key;

/// The most bytes that name a requester.
pub(crate) const KEY: usize = 83;

/// The network of a requester, if it is another than this one.
pub(crate) fn other_net(here: u16, key: Key) -> Option<u16>
    ensures { result ≡ other_net here (key.from).net }
{
    if key.from.net == here {
        None
    } else {
        Some(key.from.net)
    }
}

/// Puts a requester's node behind this network, its socket and its transaction.
pub(crate) fn put_key(line: &mut Piece, net: Option<u16>, key: Key)
    requires { length line.old + KEY ≤ ROOM }
    ensures text { line.new ≡ line.old ++ key_text net key }
    ensures short { length line.new ≤ length line.old + KEY }
{
    put_net(line, net);
    line.put_number(u64::from(key.from.node));
    line.put(b" ");
    line.put_number(u64::from(key.from.socket));
    line.put(b" ");
    line.put_number(u64::from(key.tid));
}

fn put_net(line: &mut Piece, net: Option<u16>)
    requires { length line.old + 21 ≤ ROOM }
    ensures text { line.new ≡ line.old ++ net_text net }
    ensures short { length line.new ≤ length line.old + 21 }
{
    if let Some(net) = net {
        line.put_number(u64::from(net));
        line.put(b".");
    }
}

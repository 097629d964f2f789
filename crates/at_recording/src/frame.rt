//! The frame of a datagram.
ghost use Rattle.std.specs.Prelude.{◌≡◌, ◌≤◌, length};
ghost use Rattle.at_recording.specs.Frames.{carried, node_address, receiver, sender};

use at_frames::MAX_ETHERTALK;

/// The most bytes of a datagram that its frame has.
const MOST: usize = MAX_ETHERTALK as usize;

/// The place of the sending node in the long header of a datagram.
const SENDER: usize = 9;

/// The node that stands for every node.
const EVERY_NODE: u8 = 255;

/// EtherTalk's address of all nodes.
const ALL_NODES: [u8; 6] = [0x09, 0x00, 0x07, 0xFF, 0xFF, 0xFF];

/// The bytes of a datagram that its frame has: all of them, up to the most that a frame takes.
pub(crate) fn carried(bytes: &[u8]) -> &[u8]
    ensures front { result.now ≡ carried bytes.now }
    ensures few { length result.now ≤ 1492 }
{
    if bytes.len() > MOST {
        &bytes[..MOST]
    } else {
        bytes
    }
}

/// Where the frame of a datagram for this node goes to.
pub(crate) fn receiver(node: u8) -> [u8; 6]
    ensures { result ≡ receiver node }
{
    if node == EVERY_NODE {
        ALL_NODES
    } else {
        node_address(node)
    }
}

/// Where the frame of a datagram comes from.
pub(crate) fn sender(bytes: &[u8]) -> [u8; 6]
    ensures { result ≡ sender bytes.now }
{
    if bytes.len() > SENDER {
        node_address(bytes[SENDER])
    } else {
        node_address(0)
    }
}

fn node_address(node: u8) -> [u8; 6]
    ensures { result ≡ node_address node }
{
    [0x02, 0x00, 0x00, 0x00, 0x00, node]
}

//! A node for programs in C. The file `include/at_node.h` declares these functions, and says what a program owes.
#![tactic(auto)]

ghost use Rattle.std.specs.Prelude.{◌≡◌, IfSome};
ghost use Rattle.std.specs.declared.option.Option.TheVariants.{None};
ghost use Rattle.at_c.specs.Calls.{At, HandsLines, HandsNext, HandsRefusal, HandsTold, IsSafeAt, Opens, PlaysLine};
ghost use Rattle.at_c.specs.Calls.{ReceivesBytes, Shows};
ghost use Rattle.at_c.specs.Statuses.{done};
ghost use Rattle.at_node.specs.Limits.{IsWithin};
ghost use Rattle.at_steps.specs.Safety.{IsTableOf, IsTableOfCall};

mod handle;
mod opening;
mod status;

use at_held::show;
use handle::AtNode;
use opening::opened;
use status::{DONE, NOT_OPEN, handed_status, open_status, played_status, received_status};
use std::alloc::Global;

/// The number of this interface, which rises with each change of what these functions promise.
const VERSION: u32 = 2;

/// The number of this interface.
#[unsafe(no_mangle)]
pub extern "C" fn at_node_version() -> u32
    ensures { result ≡ 2 }
{
    VERSION
}

/// Opens the node of this number, of the cable that the first lines of a schedule set up. A node that the handle held
/// is closed then. If no node is opened, the handle stays as it is.
#[unsafe(no_mangle)]
pub extern "C" fn at_node_open(alloc: Global, handle: &mut AtNode, setup: &[u8], number: u8) -> u32
    ensures opens { Opens setup.now number handle.old.node result handle.new.node }
    ensures within { result ≡ done → IfSome handle.new.node (λ held. IsWithin held.node) }
{
    match opened(alloc, setup, number) {
        Ok(node) => {
            handle.put(alloc, node);
            DONE
        }
        Err(fault) => open_status(fault),
    }
}

/// Closes the node, and frees all its memory.
#[unsafe(no_mangle)]
pub extern "C" fn at_node_close(alloc: Global, handle: &mut AtNode)
    ensures { handle.new.node ≡ None }
{
    drop(handle.take(alloc));
}

/// Plays `call CALL` or `timer TIMER`. Only a call, or a timer whose step takes memory, can lack memory.
#[unsafe(no_mangle)]
pub extern "C" fn at_node_play(alloc: Global, handle: &mut AtNode, line: &[u8]) -> u32
    ensures plays { At handle.old.node result handle.new.node (PlaysLine line.now result) }
    ensures safe { IsSafeAt IsTableOfCall handle.old.node result handle.new.node }
    ensures within { IfSome handle.new.node (λ held. IsWithin held.node) }
{
    let Some(mut node) = handle.take(alloc) else {
        return NOT_OPEN;
    };
    let played = node.play(alloc, line);
    handle.put(alloc, node);
    played_status(played)
}

/// Takes the bytes of a datagram that came.
#[unsafe(no_mangle)]
pub extern "C" fn at_node_receive(alloc: Global, handle: &mut AtNode, bytes: &[u8]) -> u32
    ensures receives { At handle.old.node result handle.new.node (ReceivesBytes bytes.now result) }
    ensures safe { IsSafeAt (IsTableOf bytes.now) handle.old.node result handle.new.node }
    ensures within { IfSome handle.new.node (λ held. IsWithin held.node) }
{
    let Some(mut node) = handle.take(alloc) else {
        return NOT_OPEN;
    };
    let received = node.receive(bytes);
    handle.put(alloc, node);
    received_status(received)
}

/// Hands out the datagram that waits for longest, its length, and the number of the node that it goes to.
#[unsafe(no_mangle)]
pub extern "C" fn at_node_next_datagram(
    alloc: Global,
    handle: &mut AtNode,
    to: &mut u8,
    room: &mut [u8],
    length: &mut usize,
) -> u32
    ensures node { At handle.old.node result handle.new.node
        (HandsNext to.old room.old length.old result to.new room.new length.new) }
    ensures untouched { handle.old.node ≡ None → (to.new ≡ to.old) × (room.new ≡ room.old) × (length.new ≡ length.old) }
{
    let Some(mut node) = handle.take(alloc) else {
        return NOT_OPEN;
    };
    let next = node.next_datagram(room);
    handle.put(alloc, node);
    match next {
        Ok((number, count)) => {
            *to = number;
            handed_status(Ok(count), length)
        }
        Err(why) => handed_status(Err(why), length),
    }
}

/// Hands out the line of the last event, under this number, and its length.
#[unsafe(no_mangle)]
pub extern "C" fn at_node_report(
    alloc: Global,
    handle: &mut AtNode,
    event: u32,
    room: &mut [u8],
    length: &mut usize,
) -> u32
    ensures node { At handle.old.node result handle.new.node
        (HandsTold event room.old length.old result room.new length.new) }
    ensures untouched { handle.old.node ≡ None → (room.new ≡ room.old) × (length.new ≡ length.old) }
{
    let Some(node) = handle.take(alloc) else {
        return NOT_OPEN;
    };
    let told = node.report(alloc, event, room);
    handle.put(alloc, node);
    handed_status(told, length)
}

/// Hands out a line for each timer that would do something now, and how long they are.
#[unsafe(no_mangle)]
pub extern "C" fn at_node_timers(
    alloc: Global,
    handle: &mut AtNode,
    room: &mut [u8],
    length: &mut usize,
) -> u32
    ensures node { At handle.old.node result handle.new.node
        (HandsLines room.old length.old result room.new length.new) }
    ensures untouched { handle.old.node ≡ None → (room.new ≡ room.old) × (length.new ≡ length.old) }
{
    let Some(node) = handle.take(alloc) else {
        return NOT_OPEN;
    };
    let listed = node.timers(alloc, room);
    handle.put(alloc, node);
    handed_status(listed, length)
}

/// Hands out the lines of what these bytes are, as of a datagram, and how long they are. It needs no node.
#[unsafe(no_mangle)]
pub extern "C" fn at_node_show(
    alloc: Global,
    bytes: &[u8],
    room: &mut [u8],
    length: &mut usize,
) -> u32
    ensures { Shows bytes.now room.old length.old result room.new length.new }
{
    let shown = show(alloc, bytes, room);
    handed_status(shown, length)
}

/// Hands out the number and the sentence of the refusal, if the last event was refused, and the sentence's length.
#[unsafe(no_mangle)]
pub extern "C" fn at_node_refusal(
    alloc: Global,
    handle: &mut AtNode,
    number: &mut u8,
    room: &mut [u8],
    length: &mut usize,
) -> u32
    ensures node { At handle.old.node result handle.new.node
        (HandsRefusal number.old room.old length.old result number.new room.new length.new) }
    ensures untouched { handle.old.node ≡ None
        → (number.new ≡ number.old) × (room.new ≡ room.old) × (length.new ≡ length.old) }
{
    let Some(node) = handle.take(alloc) else {
        return NOT_OPEN;
    };
    if let Some(refusal) = node.refusal() {
        *number = refusal;
    }
    let told = node.sentence(alloc, room);
    handle.put(alloc, node);
    handed_status(told, length)
}

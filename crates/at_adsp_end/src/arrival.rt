//! The items of a data segment.
ghost use Rattle.std.specs.Prelude.{◌≡◌, ◌-◌, ◌<◌, ◌++◌, length, map, take};
ghost use Rattle.circular_buffer.specs.Buffer.{buffer};
ghost use Rattle.at_adsp_end.specs.Cuts.{items_in};
ghost use Rattle.at_adsp_end.specs.Hearing.{rest};

use crate::item::Item;
use circular_buffer::HeapCircularBuffer;
use std::alloc::Allocator;

// Bytes, and perhaps the end of a message behind them.
#[derive(Clone, Copy)]
pub(crate) struct NewItems<'a> {
    pub(crate) bytes: &'a [u8],
    pub(crate) end: bool,
}

// The items that are not received yet, if the first was so far behind.
pub(crate) fn new_items(end: bool, bytes: &[u8], behind: Option<u32>) -> NewItems<'_>
    ensures { items_in result.end result.bytes.now ≡ rest (items_in end bytes.now) behind }
{
    match behind {
        Some(count) if count as usize <= bytes.len() => NewItems {
            bytes: &bytes[count as usize..],
            end,
        },
        _ => NewItems {
            bytes: &bytes[..0],
            end: false,
        },
    }
}

// Keeps the items for which there is room, and returns how many they are.
pub(crate) fn keep<A: Allocator>(
    unread: &mut HeapCircularBuffer<Item, A>,
    arrival: &NewItems<'_>,
) -> u16
    requires { unread.old.capacity < 65536 }
    ensures count { result ≡ length (take (unread.old.capacity - length unread.old.items)
        (items_in arrival.now.end arrival.now.bytes.now)) }
    ensures kept { unread.new ≡ buffer (unread.old.items ++ take (unread.old.capacity - length unread.old.items)
        (items_in arrival.now.end arrival.now.bytes.now)) unread.old.capacity }
{
    let before = unread.len();
    keep_bytes(unread, arrival.bytes);
    if arrival.end {
        let _ = unread.try_push_back(Item::End);
    }
    (unread.len() - before) as u16
}

fn keep_bytes<A: Allocator>(unread: &mut HeapCircularBuffer<Item, A>, bytes: &[u8])
    ensures { unread.new ≡ buffer (unread.old.items
        ++ take (unread.old.capacity - length unread.old.items) (map Item.Byte bytes.now)) unread.old.capacity }
{
    for byte in bytes {
        let _ = unread.try_push_back(Item::Byte(*byte));
    }
}

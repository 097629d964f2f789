//! A table beside the plain list that its contracts speak of, over the same calls.
ghost use Rattle.std.specs.Prelude.{◌<◌, length, IfSome};

use crate::chance::following;
use at_table::Table;
use std::process::Abort;

/// How many keys there are: some have an entry, and some do not.
const KEYS: u16 = 48;

const CALLS: u32 = 20_000;

/// The entries of the plain list.
type Plain = Vec<(u16, u32)>;

fn index_of(plain: &Plain, key: u16) -> Option<usize>
    ensures { IfSome result (λ index. index < length plain.now.items) }
{
    plain.iter().position(|entry| entry.0 == key)
}

// The value becomes that of the key, whose entry is put in if it does not stand.
fn put(rt: &impl Abort, table: &mut Table<u16, u32>, key: u16, value: u32) {
    match table.index_of(&key) {
        Some(index) => *table.at_mut(index) = value,
        None => {
            table.reserve().expect(rt, "no memory");
            table.push(key, value);
        }
    }
}

fn put_plainly(rt: &impl Abort, plain: &mut Plain, key: u16, value: u32) {
    match index_of(plain, key) {
        Some(index) => plain[index].1 = value,
        None => plain.push((key, value)).expect(rt, "no memory"),
    }
}

fn remove(table: &mut Table<u16, u32>, key: u16) -> Option<u32> {
    let index = table.index_of(&key)?;
    Some(table.remove(index))
}

fn remove_plainly(plain: &mut Plain, key: u16) -> Option<u32> {
    let index = index_of(plain, key)?;
    Some(plain.remove(index).1)
}

// Both have the same entries in the same order.
fn compare(rt: &impl Abort, table: &Table<u16, u32>, plain: &Plain) {
    assert!(rt; table.len() == plain.len());
    for key in 0..KEYS {
        let place = table.index_of(&key);
        assert!(rt; place == index_of(plain, key));
        let value = place.map(|index| *table.at(index));
        assert!(rt; value == table.get(&key).copied());
        assert!(rt;
            value
                == place
                    .and_then(|index| plain.get(index))
                    .map(|entry| entry.1)
        );
    }
}

#[test]
fn a_table_is_the_plain_list_of_its_entries(rt: HostRuntime) {
    let mut table = Table::new(rt.alloc());
    let mut plain = Vec::new(rt.alloc());
    let mut number = 1u32;
    let mut most = 0;
    for _call in 0..CALLS {
        number = following(number);
        let key = (number >> 16) as u16 % KEYS;
        if number >> 31 == 0 {
            put(&rt, &mut table, key, number);
            put_plainly(&rt, &mut plain, key, number);
        } else {
            assert!(rt; remove(&mut table, key) == remove_plainly(&mut plain, key));
        }
        compare(&rt, &table, &plain);
        most = most.max(table.len());
    }
    // The calls reach tables of many entries.
    assert!(rt; most > 24);
}

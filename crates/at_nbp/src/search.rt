//! One open lookup, and which tuples of a reply join its finds.
ghost use Rattle.std.specs.Prelude.{◌≡◌, ◌≤◌, ◌<◌, ◌+◌, ◌++◌, ◌∷◌, [], true, length, None, IfOk, IfSome, OnOk, OnErr};
ghost use Rattle.std.specs.Prelude.{IsOk};
ghost use Rattle.std.specs.List.{list_any};
ghost use Rattle.indexmap.specs.IndexSet.{spare};
ghost use Rattle.at_nbp.specs.Lookups.{all_joined, answered, asked, asking, beginning, find_of, is_star, joins};
ghost use Rattle.at_nbp.specs.Lookups.{same_find};
ghost use Rattle.at_nbp.specs.Tuples.{FitsStrings, content};

use crate::find::Find;
use crate::name::{Name, is_any_zone, matches};
use crate::tuple::Tuple;
use crate::tuples::Tuples;
use at_ddp::{Address, Pascal};
use indexmap::IndexSet;
use std::alloc::{AllocError, Allocator};
use std::hash::{BuildHasherDefault, FoldHasher};
use std::marker::Model;

/// The most finds of a lookup. Further ones are dropped.
pub const MAX_FINDS: usize = 256;

/// The finds of a lookup, in order of arrival.
type Finds<A> = IndexSet<Find, BuildHasherDefault<FoldHasher>, A>;

/// An open lookup.
#[derive(Drop)]
pub(crate) struct Search<A: Allocator> {
    pub(crate) id: u8,
    pattern: Name,
    pub(crate) finds: Finds<A>,
}

impl<A: Allocator> Model for Search<A> {
    ghost use Rattle.at_nbp.specs.Lookups.{Search as Open, IsSearch};

    ghost Value = { Open };

    ghost view = { λ s. record { id = s.id; pattern = s.pattern; finds = s.finds.keys } };

    ghost invariant = { λ s. IsSearch (record { id = s.id; pattern = s.pattern; finds = s.finds.keys }) };
}

impl<A: Allocator + Copy> Search<A> {
    pub(crate) fn begin(alloc: A, id: u8, pattern: Name) -> Search<A>
        ensures { result ≡ beginning id pattern }
    {
        Search {
            id,
            pattern: asked(pattern),
            finds: IndexSet::new(alloc),
        }
    }

    // The tuple of the packet that asks, from this address.
    pub(crate) fn tuple(&self, own: Address) -> Tuple<'_>
        ensures content { content result ≡ asking own self.now.pattern }
        ensures short { FitsStrings (content result) }
    {
        Tuple {
            address: own,
            enumerator: 0,
            object: self.pattern.object.bytes(),
            kind: self.pattern.kind.bytes(),
            zone: self.pattern.zone.bytes(),
        }
    }

    // Keeps the finds of a reply that join, and returns how many they are. If there are none, it needs no memory.
    pub(crate) fn hear(&mut self, tuples: &Tuples<'_>) -> Result<usize, AllocError>
        ensures state { OnOk result (self.new ≡ answered self.old tuples.now) }
        ensures count { IfOk result (λ count. length self.old.finds + count
            ≡ length (answered self.old tuples.now).finds) }
        ensures unchanged { OnErr result (self.new ≡ self.old) }
        ensures none { length (answered self.old tuples.now).finds ≡ length self.old.finds → IsOk result }
    {
        let mut tuples = tuples.iter();
        let Some(find) = next_joining(&self.pattern, &self.finds, &mut tuples) else {
            return Ok(0);
        };
        let known = self.finds.len();
        self.finds.reserve(1 + tuples.unread())?;
        self.finds.insert(find).unwrap();
        join_all(&self.pattern, &mut self.finds, &mut tuples);
        Ok(self.finds.len() - known)
    }
}

// What a lookup of this pattern asks for: an empty zone asks for any, as `*` does.
fn asked(pattern: Name) -> Name
    ensures { result ≡ asked pattern }
{
    if is_any_zone(pattern.zone.bytes()) {
        Name {
            zone: Pascal::new(b"*").unwrap(),
            ..pattern
        }
    } else {
        pattern
    }
}

// Takes tuples up to the next that joins the finds, and returns it as a find; none if no more joins.
fn next_joining<A: Allocator>(
    pattern: &Name,
    finds: &Finds<A>,
    tuples: &mut Tuples<'_>,
) -> Option<Find>
    ensures joins { IfSome result (λ f. joins pattern.now finds.now.keys f ≡ true) }
    ensures passed { IfSome result (λ f. all_joined pattern.now finds.now.keys tuples.old
        ≡ all_joined pattern.now (finds.now.keys ++ f ∷ []) tuples.new) }
    ensures fewer { IfSome result (λ f. length tuples.new < length tuples.old) }
    ensures none { result ≡ None → all_joined pattern.now finds.now.keys tuples.old ≡ finds.now.keys }
{
    while let Some(tuple) = tuples.take_next() {
        let find = find_of(pattern, &tuple);
        if joins(pattern, finds, &find) {
            return Some(find);
        }
    }
    None
}

// Appends each tuple that joins. There is room for all of them.
fn join_all<A: Allocator>(pattern: &Name, finds: &mut Finds<A>, tuples: &mut Tuples<'_>)
    requires { length tuples.old ≤ spare finds.old }
    ensures { finds.new.keys ≡ all_joined pattern.now finds.old.keys tuples.old }
{
    while let Some(find) = next_joining(pattern, finds, tuples) {
        finds.insert(find).unwrap();
    }
}

// A tuple of a reply as a find.
fn find_of(pattern: &Name, tuple: &Tuple<'_>) -> Find
    requires { FitsStrings (content tuple.now) }
    ensures { result ≡ find_of pattern.now (content tuple.now) }
{
    let zone = if is_star(tuple.zone) {
        pattern.zone.bytes()
    } else {
        tuple.zone
    };
    Find {
        name: Name {
            object: Pascal::new(tuple.object).unwrap(),
            kind: Pascal::new(tuple.kind).unwrap(),
            zone: Pascal::new(zone).unwrap(),
        },
        address: tuple.address,
        enumerator: tuple.enumerator,
    }
}

fn is_star(zone: &[u8]) -> bool
    ensures { result ≡ is_star zone.now }
{
    matches!(zone, [b'*'])
}

fn joins<A: Allocator>(pattern: &Name, finds: &Finds<A>, find: &Find) -> bool
    ensures { result ≡ joins pattern.now finds.now.keys find.now }
{
    matches(pattern, &find.name) && !is_found(finds, find) && finds.len() < MAX_FINDS
}

fn is_found<A: Allocator>(finds: &Finds<A>, find: &Find) -> bool
    ensures { result ≡ list_any (same_find find.now) finds.now.keys }
{
    finds.contains(find)
}

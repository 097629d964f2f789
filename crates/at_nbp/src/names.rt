//! The table of a node's own names. `replies.rt` has its answers to lookups.
ghost use Rattle.std.specs.Prelude.{◌≡◌, ◌||◌, ◌<◌, ◌↔◌, [], ◌∷◌, length, find, is_some, option_map};
ghost use Rattle.std.specs.Prelude.{IfSome, IfErr, OnOk, OnErr, IsOk, IsSome, Some, None, Err};
ghost use Rattle.std.specs.List.{list_any};
ghost use Rattle.std.specs.Option.{option_copied};
ghost use Rattle.at_ddp.specs.Tables.{without_first};
ghost use Rattle.at_nbp.specs.NameTables.{IsLeastFree, IsRegistered, has_number, is_called, is_no_text, own_find};
ghost use Rattle.at_nbp.specs.NameTables.{AreNames, register_fault};

use crate::fault::NbpFault;
use crate::find::{Find, copy_of};
use crate::name::Name;
use crate::title::Title;
use at_ddp::{Address, Pascal};
use at_patterns::is_any_text;
use indexmap::IndexMap;
use std::alloc::{Allocator, Global};
use std::hash::{BuildHasherDefault, FoldHasher};
use std::marker::Model;

/// The most names of a node.
pub const MAX_NAMES: usize = 64;

/// A name of a node's own.
#[derive(Drop)]
pub struct Registered {
    pub object: Pascal,
    /// The type of the object.
    pub kind: Pascal,
    pub socket: u8,
    /// Which of several names of one socket this is, from 0.
    pub enumerator: u8,
}

/// A node's own names, in the order in which they were registered. There are at most 64.
#[derive(Drop)]
pub struct Names<A: Allocator = Global> {
    pub(crate) alloc: A,
    pub(crate) own: Address,
    pub(crate) zone: Pascal,
    // Each name as it was registered, under its title.
    pub(crate) names: IndexMap<Title, Registered, BuildHasherDefault<FoldHasher>, A>,
}

impl<A: Allocator> Model for Names<A> {
    ghost use Rattle.at_nbp.specs.NameTables.{AreNames, Table};
    ghost use Rattle.at_nbp.specs.Titles.{AreTitled};
    ghost use Rattle.indexmap.specs.IndexMap.{values};

    ghost Value = { Table };

    ghost view = { λ n. record { own = n.own; zone = n.zone; names = values n.names } };

    ghost invariant = { λ n. AreNames (values n.names) × AreTitled n.names };
}

impl<A: Allocator + Copy> Names<A> {
    /// The table of a node without names. Its names carry the node's zone, or `*` if it has none.
    pub fn new(alloc: A, own: Address, zone: Option<Pascal>) -> Names<A>
        ensures zone { IfSome zone (λ z. result.zone ≡ z) }
        ensures no_zone { zone ≡ None → result.zone ≡ 0x2A ∷ [] }
        ensures rest { (result.own ≡ own) × (result.names ≡ []) }
    {
        let zone = match zone {
            Some(zone) => zone,
            None => Pascal::new(b"*").unwrap(),
        };
        Names {
            alloc,
            own,
            zone,
            names: IndexMap::new(alloc),
        }
    }

    /// There are at most 64 names. The body only visits them.
    pub fn limits(&self)
        ensures { AreNames self.now.names }
    {
        let _count = self.names.len();
    }

    /// The socket of the table, and its network and node.
    pub fn own(&self) -> Address
        ensures { result ≡ self.now.own }
    {
        self.own
    }

    /// The zone of the node's names.
    pub fn zone(&self) -> &Pascal
        ensures { result.now ≡ self.now.zone }
    {
        &self.zone
    }

    /// Registers a name of a socket, with the least enumerator that is free there.
    pub fn register(&mut self, object: Pascal, kind: Pascal, socket: u8) -> Result<(), NbpFault>
        ensures ok { OnOk result (IsRegistered object kind socket self.old self.new) }
        ensures unchanged { OnErr result (self.new ≡ self.old) }
        ensures refuses { IfSome (register_fault self.old.names object kind) (λ fault. result ≡ Err fault) }
        ensures memory { IfErr result (λ fault. register_fault self.old.names object kind ≡ None
            → fault ≡ NbpFault.NoMemory) }
    {
        if let Some(fault) = self.register_fault(&object, &kind) {
            return Err(fault);
        }
        self.names.reserve(1)?;
        let title = Title::of(&object, &kind);
        let enumerator = least_free(self.names.values().as_slice(), socket);
        let name = Registered {
            object,
            kind,
            socket,
            enumerator,
        };
        self.names.insert(title, name).unwrap();
        Ok(())
    }

    /// Takes a name away. This needs no memory.
    pub fn unregister(&mut self, object: &Pascal, kind: &Pascal) -> Result<(), NbpFault>
        ensures ok { OnOk result (self.new ≡ record self.old {
          names = without_first (is_called object.now kind.now) self.old.names;
        }) }
        ensures unchanged { OnErr result (self.new ≡ self.old) }
        ensures found { IsOk result ↔ IsSome (find (is_called object.now kind.now) self.old.names) }
        ensures refuses { IfErr result (λ fault. fault ≡ NbpFault.NoSuchName) }
    {
        let Some(_name) = self.names.shift_remove(&Title::of(object, kind)) else {
            return Err(NbpFault::NoSuchName);
        };
        Ok(())
    }

    /// The name with this object and type, as others find it; none if it is not registered.
    pub fn find(&self, object: &Pascal, kind: &Pascal) -> Option<Find>
        ensures { result ≡ option_map (own_find self.now) (find (is_called object.now kind.now) self.now.names) }
    {
        let name = self.named(object, kind)?;
        Some(Find {
            name: Name {
                object: copy_of(&name.object),
                kind: copy_of(&name.kind),
                zone: copy_of(&self.zone),
            },
            address: Address {
                socket: name.socket,
                ..self.own
            },
            enumerator: name.enumerator,
        })
    }

    // Why a name cannot be registered beside those that stand.
    fn register_fault(&self, object: &Pascal, kind: &Pascal) -> Option<NbpFault>
        ensures { result ≡ register_fault self.now.names object.now kind.now }
    {
        if is_no_name(object, kind) {
            Some(NbpFault::EmptyName)
        } else if self.named(object, kind).is_some() {
            Some(NbpFault::NameInUse)
        } else if self.names.len() >= MAX_NAMES {
            Some(NbpFault::NamesFull)
        } else {
            None
        }
    }

    fn named(&self, object: &Pascal, kind: &Pascal) -> Option<&Registered>
        ensures { option_copied result ≡ find (is_called object.now kind.now) self.now.names }
    {
        self.names.get(&Title::of(object, kind))
    }

    // The names in the order in which they were registered.
    pub(crate) fn listed(&self) -> &[Registered]
        ensures { result.now ≡ self.now.names }
    {
        self.names.values().as_slice()
    }
}

/// Whether no name can have this object and type: one of them is empty or just `=`.
pub fn is_no_name(object: &Pascal, kind: &Pascal) -> bool
    ensures { result ≡ (is_no_text object.now || is_no_text kind.now) }
{
    is_no_text(object.bytes()) || is_no_text(kind.bytes())
}

fn is_no_text(text: &[u8]) -> bool
    ensures { result ≡ is_no_text text.now }
{
    text.is_empty() || is_any_text(text)
}

/// The least number that no name of the socket has.
fn least_free(names: &[Registered], socket: u8) -> u8
    requires { length names.now < 64 }
    ensures { IsLeastFree names.now socket result }
{
    let mut number = 0;
    while has_number(names, socket, number) {
        number += 1;
    }
    number
}

fn has_number(names: &[Registered], socket: u8, number: u8) -> bool
    ensures { result ≡ list_any (has_number socket number) names.now }
{
    names
        .iter()
        .any(|name| name.socket == socket && name.enumerator == number)
}

//! A router's zone table, and which lists of names are one.
ghost use Rattle.std.specs.Prelude.{◌≡◌, ◌≢◌, ◌≤◌, length, None, Some, IfOk, IfErr, OnOk, IsErrOf};
ghost use Rattle.std.specs.List.{list_all};
ghost use Rattle.at_zip.specs.Zones.{IsTable, is_name, table_fault};

use crate::fault::ZipFault;
use at_ddp::{Listed, Pascal};
use std::alloc::{AllocError, Allocator, Global};
use std::marker::Model;

/// The most names of a table.
pub const MAX_ZONES: usize = 1024;

/// A router's zone table: the names, in order.
#[derive(Drop)]
pub struct Zones<A: Allocator = Global> {
    list: Listed<Pascal, A>,
}

impl<A: Allocator> Model for Zones<A> {
    ghost use Rattle.std.specs.Prelude.{List, ℕ};
    ghost use Rattle.at_zip.specs.Zones.{IsTable};

    ghost Value = { List (List ℕ) };

    ghost view = { λ z. z.list };

    ghost invariant = { λ z. IsTable z.list };
}

impl<A: Allocator> Zones<A> {
    /// The table of these names. This needs no memory.
    pub fn new(list: Listed<Pascal, A>) -> Result<Zones<A>, ZipFault>
        ensures ok { IfOk result (λ zones. zones ≡ list) }
        ensures lawful { OnOk result (table_fault list ≡ None) }
        ensures table { IfOk result IsTable }
        ensures fault { IfErr result (λ fault. table_fault list ≡ Some fault) }
    {
        match table_fault(list.as_slice()) {
            None => Ok(Zones { list }),
            Some(fault) => Err(fault),
        }
    }

    /// A table of copies of these names. They are looked at before memory is asked for.
    pub fn copy_of(alloc: A, names: &[Pascal]) -> Result<Zones<A>, ZipFault>
        ensures ok { IfOk result (λ zones. zones ≡ names.now) }
        ensures lawful { OnOk result (table_fault names.now ≡ None) }
        ensures fault { IfErr result (λ fault. fault ≢ ZipFault.NoMemory → table_fault names.now ≡ Some fault) }
        ensures memory { IsErrOf result ZipFault.NoMemory → table_fault names.now ≡ None }
    {
        match table_fault(names) {
            None => Ok(Zones {
                list: Listed::from_vec(copies_in(Vec::new(alloc), names)?),
            }),
            Some(fault) => Err(fault),
        }
    }

    pub fn names(&self) -> &[Pascal]
        ensures value { result.now ≡ self.now }
        ensures table { IsTable result.now }
    {
        self.list.as_slice()
    }
}

/// Why these names are no table, if they are none. This needs no memory.
pub fn table_fault(names: &[Pascal]) -> Option<ZipFault>
    ensures fault { result ≡ table_fault names.now }
    ensures table { result ≡ None → IsTable names.now }
{
    if names.len() > MAX_ZONES {
        return Some(ZipFault::TooManyZones);
    }
    if !are_names(names) {
        return Some(ZipFault::BadZone);
    }
    None
}

// Copies of these names, in order, in some room.
pub(crate) fn copies_in<A: Allocator>(
    room: Vec<Pascal, A>,
    names: &[Pascal],
) -> Result<Vec<Pascal, A>, AllocError>
    ensures { IfOk result (λ copies. copies.items ≡ names.now) }
{
    let mut copies = room;
    copies.clear();
    for name in names {
        copies.push(Pascal::new(name.bytes()).unwrap())?;
    }
    Ok(copies)
}

fn are_names(names: &[Pascal]) -> bool
    ensures { result ≡ list_all is_name names.now }
{
    names.iter().all(is_name)
}

/// Whether a string is the name of a zone: it has 1 to 32 bytes.
pub fn is_name(name: &Pascal) -> bool
    ensures { result ≡ is_name name.now }
{
    is_name_spelled(name.bytes())
}

fn is_name_spelled(bytes: &[u8]) -> bool
    requires { length bytes.now ≤ 32 }
    ensures { result ≡ is_name bytes.now }
{
    !bytes.is_empty()
}

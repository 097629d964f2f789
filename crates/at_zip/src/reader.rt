//! The reading of a table page by page, up to the last one, which gives all names.
ghost use Rattle.std.specs.Prelude.{◌≡◌, ◌↔◌, ◌+◌, ◌<◌, ◌⊎◌, ◌++◌, [], length, nat_lt, OnErr, OnOk, IfErr, IfOk};
ghost use Rattle.std.specs.Prelude.{IsErrOf};
ghost use Rattle.at_zip.specs.Reading.{HasRoomFor, place_after};

use crate::fault::ZipFault;
use crate::page_view::PageView;
use crate::zones::{MAX_ZONES, copies_in};
use at_ddp::{Listed, Pascal};
use std::alloc::{AllocError, Allocator, Global};
use std::marker::Model;

/// A reading of a zone table page by page: the names of the pages so far.
#[derive(Drop)]
pub struct ZoneReader<A: Allocator = Global> {
    alloc: A,
    names: Vec<Pascal, A>,
}

impl<A: Allocator> Model for ZoneReader<A> {
    ghost use Rattle.std.specs.Prelude.{◌-◌, vec_len, vec_capacity};
    ghost use Rattle.at_zip.specs.Reading.{Reader};
    ghost use Rattle.at_zip.specs.Zones.{IsTable};

    ghost Value = { Reader };

    ghost view = { λ r. record { names = r.names.items; room = vec_capacity r.names - vec_len r.names } };

    ghost invariant = { λ r. IsTable r.names.items };
}

impl<A: Allocator + Copy> ZoneReader<A> {
    /// A reading without names. This needs no memory.
    pub fn new(alloc: A) -> ZoneReader<A>
        ensures { result.names ≡ [] }
    {
        ZoneReader {
            alloc,
            names: Vec::new(alloc),
        }
    }

    /// The place that a reading asks from first.
    pub fn first() -> u16
        ensures { result ≡ place_after [] }
    {
        1
    }

    /// Makes room for the names of a page. Refuses a page with which the table would have over 1,024 names.
    pub fn room(&mut self, page: &PageView<'_>) -> Result<(), ZipFault>
        ensures ok { OnOk result (HasRoomFor self.new page.now) }
        ensures too_many { IsErrOf result ZipFault.TooManyZones
            ↔ (1024 < length self.old.names + length page.now.names) }
        ensures no_other { IfErr result (λ fault. (fault ≡ ZipFault.TooManyZones) ⊎ (fault ≡ ZipFault.NoMemory)) }
        ensures same { self.new.names ≡ self.old.names }
        ensures unchanged { OnErr result (self.new ≡ self.old) }
    {
        if self.is_too_long_with(page) {
            return Err(ZipFault::TooManyZones);
        }
        self.names.reserve(page.count())?;
        Ok(())
    }

    /// Whether the table would have over 1,024 names with those of a page.
    pub fn is_too_long_with(&self, page: &PageView<'_>) -> bool
        ensures { result ≡ nat_lt 1024 (length self.now.names + length page.now.names) }
    {
        self.names.len() + page.count() > MAX_ZONES
    }

    /// A list of the names so far, and then those of a page, in the room of a list that is no longer wanted. The error
    /// is out of memory.
    pub fn list_with(
        &self,
        page: &PageView<'_>,
        room: Listed<Pascal, A>,
    ) -> Result<Listed<Pascal, A>, AllocError>
        ensures { IfOk result (λ list. list ≡ self.now.names ++ page.now.names) }
    {
        let mut list = copies_in(room.into_vec(), &self.names)?;
        list.reserve(page.count())?;
        page.push_names(&mut list);
        Ok(Listed::from_vec(list))
    }

    /// The place from which the page after this one is to be asked for.
    pub fn after(&self, page: &PageView<'_>) -> u16
        requires { HasRoomFor self.now page.now }
        ensures { result ≡ place_after (self.now.names ++ page.now.names) }
    {
        (1 + self.names.len() + page.count()) as u16
    }

    /// Adds the names of a page for which there is room. This needs no memory.
    pub fn take(&mut self, page: &PageView<'_>)
        requires { HasRoomFor self.old page.now }
        ensures { self.new.names ≡ self.old.names ++ page.now.names }
    {
        page.push_names(&mut self.names);
    }

    /// All names: those so far, and then those of a page for which there is room. This needs no memory.
    pub fn into_list(self, page: &PageView<'_>) -> Listed<Pascal, A>
        requires { HasRoomFor self page.now }
        ensures { result ≡ self.names ++ page.now.names }
    {
        let mut names = self.names;
        page.push_names(&mut names);
        Listed::from_vec(names)
    }
}

//! The two zone tables of a router.
ghost use Rattle.std.specs.Prelude.{◌≡◌};
ghost use Rattle.at_zip.specs.Tables.{AreTables, table_of, with_table};

use crate::request::TableChoice;
use crate::zones::Zones;
use std::alloc::{Allocator, Global};
use std::marker::Model;

/// The two zone tables of a router: of all zones of the internet, and of the zones of its own cable.
#[derive(Drop)]
pub struct Tables<A: Allocator = Global> {
    all: Zones<A>,
    local: Zones<A>,
}

impl<A: Allocator> Model for Tables<A> {
    ghost use Rattle.at_zip.specs.Tables.{Tables as Both};

    ghost Value = { Both };

    ghost view = { λ t. record { all = t.all; local = t.local } };
}

impl<A: Allocator> Tables<A> {
    /// These two tables. This needs no memory.
    pub fn new(all: Zones<A>, local: Zones<A>) -> Tables<A>
        ensures { result ≡ record { all = all; local = local } }
    {
        Tables { all, local }
    }

    /// Both tables keep to their limits. The body only visits them.
    pub fn limits(&self)
        ensures { AreTables self.now }
    {
        self.all.names();
        self.local.names();
    }

    /// The table of this kind.
    pub fn get(&self, which: TableChoice) -> &Zones<A>
        ensures { result.now ≡ table_of which self.now }
    {
        match which {
            TableChoice::All => &self.all,
            TableChoice::Local => &self.local,
        }
    }

    /// Puts another table in the place of the one of this kind. This needs no memory.
    pub fn set(&mut self, which: TableChoice, zones: Zones<A>)
        ensures { self.new ≡ with_table which zones self.old }
    {
        match which {
            TableChoice::All => self.all = zones,
            TableChoice::Local => self.local = zones,
        }
    }
}

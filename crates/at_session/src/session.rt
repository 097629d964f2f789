//! What a node keeps of its reports, for the calls that refer to them.
ghost use Rattle.std.specs.Prelude.{◌≡◌, List, ℕ, Some, IfErr, OnOk, OnErr, true, false};
ghost use Rattle.at_nbp.specs.declared.find.Find.{Find as Found};
ghost use Rattle.at_nbp.specs.Names.{same_text as is_same_text};
ghost use Rattle.at_session.specs.Sessions.{address_at, finds_kept, is_listed, list_kept, list_replaced, new_session};
ghost use Rattle.at_session.specs.Sessions.{pattern_asked, picking, zone_asked};
ghost use Rattle.std.specs.List.{list_any};
ghost use Rattle.at_zip.specs.declared.request.TableChoice.{TableChoice};

use at_ddp::{Address, Listed, Pascal, same_text};
use at_event::{NameReport, NodeFault, Report, ZoneReport};
use at_nbp::{Find, Name, copy_of};
use at_zip::TableChoice;
use std::alloc::{Allocator, Global};
use std::marker::Model;
use std::mem;

/// What a node keeps of its reports: the zone list of each kind that was read last, the zone that was picked last, and
/// what the last lookup found.
#[derive(Drop)]
pub struct Session<A: Allocator = Global> {
    all: Listed<Pascal, A>,
    local: Listed<Pascal, A>,
    picked: Option<Pascal>,
    finds: Listed<Find, A>,
}

impl<A: Allocator> Model for Session<A> {
    ghost use Rattle.at_session.specs.Sessions.{SessionState};

    ghost Value = { SessionState };

    ghost view = { λ s. record {
      lists = record { all = s.all; local = s.local };
      picked = s.picked;
      finds = s.finds;
    } };
}

impl<A: Allocator + Copy> Session<A> {
    /// A session before any report. This needs no memory.
    pub fn new(alloc: A) -> Session<A>
        ensures { result ≡ new_session }
    {
        Session {
            all: Listed::from_vec(Vec::new(alloc)),
            local: Listed::from_vec(Vec::new(alloc)),
            picked: None,
            finds: Listed::from_vec(Vec::new(alloc)),
        }
    }

    /// Picks a zone of one of the zone lists, whatever the case of its letters a to z. Refuses any other.
    /// This needs no memory.
    pub fn pick(&mut self, zone: &Pascal) -> Result<(), NodeFault>
        ensures ok { OnOk result (self.new ≡ picking self.old zone.now) }
        ensures listed { OnOk result (is_listed self.old zone.now ≡ true) }
        ensures fault { IfErr result (λ fault. fault ≡ NodeFault.ZoneNotListed) }
        ensures unlisted { OnErr result (is_listed self.old zone.now ≡ false) }
        ensures unchanged { OnErr result (self.new ≡ self.old) }
    {
        if !stands_in(self.all.as_slice(), zone) && !stands_in(self.local.as_slice(), zone) {
            return Err(NodeFault::ZoneNotListed);
        }
        self.picked = Some(copy_of(zone));
        Ok(())
    }

    /// The pattern of a lookup. If it names no zone, it asks for the one that was picked, or for any if none was. This
    /// needs no memory.
    pub fn pattern(&self, object: &Pascal, kind: &Pascal, zone: &Option<Pascal>) -> Name
        ensures { result ≡ pattern_asked self.now object.now kind.now zone.now }
    {
        Name {
            object: copy_of(object),
            kind: copy_of(kind),
            zone: self.zone_asked(zone),
        }
    }

    fn zone_asked(&self, zone: &Option<Pascal>) -> Pascal
        ensures { result ≡ zone_asked self.now zone.now }
    {
        match (zone, &self.picked) {
            (Some(zone), _) => copy_of(zone),
            (None, Some(zone)) => copy_of(zone),
            (None, None) => Pascal::new(b"*").unwrap(),
        }
    }

    /// The address of an entry of what the last lookup found, from 0; none if there is no such entry.
    pub fn address_at(&self, index: u64) -> Option<Address>
        ensures { result ≡ address_at self.now index }
    {
        let find = self.finds.as_slice().get(index as usize)?;
        Some(find.address)
    }

    /// Keeps the zone list of a report; `list` is that list, if the report has one. Gives back the list whose place it
    /// takes. This needs no memory.
    pub fn keep_list(
        &mut self,
        report: &Report<A>,
        list: Option<Listed<Pascal, A>>,
    ) -> Option<Listed<Pascal, A>>
        requires { (which : TableChoice) (names : List (List ℕ))
            → report.now ≡ Report.Zones (ZoneReport.List which names)
            → list ≡ Some names }
        ensures keeps { self.new ≡ list_kept self.old report.now }
        ensures gives { result ≡ list_replaced self.old report.now }
    {
        let (Report::Zones(ZoneReport::List { which, .. }), Some(list)) = (report, list) else {
            return None;
        };
        match which {
            TableChoice::All => Some(mem::replace(&mut self.all, list)),
            TableChoice::Local => Some(mem::replace(&mut self.local, list)),
        }
    }

    /// Keeps the finds of a report; `finds` are these finds, if the report has some. This needs no memory.
    pub fn keep_finds(&mut self, report: &Report<A>, finds: Option<Listed<Find, A>>)
        requires { (found : List Found) → report.now ≡ Report.Names (NameReport.Found found) → finds ≡ Some found }
        ensures { self.new ≡ finds_kept self.old report.now }
    {
        if let (Report::Names(NameReport::Found(_)), Some(finds)) = (report, finds) {
            self.finds = finds;
        }
    }
}

// Whether a zone is one of these, but for the case of letters.
fn stands_in(zones: &[Pascal], zone: &Pascal) -> bool
    ensures { result ≡ list_any (is_same_text zone.now) zones.now }
{
    zones
        .iter()
        .any(|other| same_text(zone.bytes(), other.bytes()))
}

//! A node's open lookups. `search.rt` has one of them, with what it found.
ghost use Rattle.std.specs.Prelude.{◌≡◌, ◌≢◌, ◌≤◌, ◌<◌, ◌+◌, ◌↔◌, ◌∷◌, [], length, find, slice_get, true};
ghost use Rattle.std.specs.Prelude.{Some, None, Err, IfOk, IfErr, IfSome, OnOk, OnErr, IsOk, IsSome, IsErrOf};
ghost use Rattle.std.specs.List.{list_any, position_from};
ghost use Rattle.std.specs.Option.{option_copied};
ghost use Rattle.at_ddp.specs.Sending.{Sends};
ghost use Rattle.at_nbp.specs.Lookups.{begun, beginning, closed, counted, finds_in, has_id, heard};
ghost use Rattle.at_nbp.specs.Lookups.{AreLookups, is_question, next_id, search_of, sent_question};
ghost use Rattle.at_nbp.specs.Packets.{packet_content};

use crate::asking::send_one;
use crate::fault::NbpFault;
use crate::find::Find;
use crate::function::Function;
use crate::name::Name;
use crate::packet::Packet;
use crate::search::Search;
use at_ddp::{Address, Outbox, first_free};
use std::alloc::{AllocError, Allocator, Global};
use std::marker::Model;

/// The most open lookups of a node.
pub const MAX_LOOKUPS: usize = 8;

/// A node's open lookups, at most 8. Each keeps its finds in order of arrival, at most 256.
#[derive(Drop)]
pub struct Lookup<A: Allocator = Global> {
    alloc: A,
    own: Address,
    to: Address,
    function: Function,
    next: u8,
    searches: Vec<Search<A>, A>,
}

impl<A: Allocator> Model for Lookup<A> {
    ghost use Rattle.at_nbp.specs.Lookups.{Lookups, AreLookups};

    ghost Value = { Lookups };

    ghost view = { λ l. record {
      own = l.own;
      to = l.to;
      function = l.function;
      next = l.next;
      searches = l.searches.items;
    } };

    ghost invariant = { λ l. AreLookups
        (record {
          own = l.own;
          to = l.to;
          function = l.function;
          next = l.next;
          searches = l.searches.items;
        }) };
}

impl<A: Allocator + Copy> Lookup<A> {
    /// A table without lookups, of the socket `own`. It asks the socket `to` by this function, a BrRq or a LkUp.
    pub fn new(alloc: A, own: Address, to: Address, function: Function) -> Lookup<A>
        requires { is_question function ≡ true }
        ensures { result ≡ record { own = own; to = to; function = function; next = 0; searches = [] } }
    {
        Lookup {
            alloc,
            own,
            to,
            function,
            next: 0,
            searches: Vec::new(alloc),
        }
    }

    /// At most 8 lookups are open, with at most 256 finds each. The body only visits them.
    pub fn limits(&self)
        ensures { AreLookups self.now }
    {
        let _next = self.next;
    }

    /// The identifier that the next lookup will get; none if 8 are open.
    pub fn next_id(&self) -> Option<u8>
        ensures id { result ≡ next_id self.now }
        ensures none { (result ≡ None) ↔ (8 ≤ length self.now.searches) }
    {
        let open = self.searches.len();
        if open < MAX_LOOKUPS {
            first_free(
                self.next,
                open + 1,
                |id| id.wrapping_add(1),
                |id| is_open(&self.searches, id),
            )
        } else {
            None
        }
    }

    /// Begins a lookup and returns its identifier. An empty zone asks for any zone, as `*` does.
    pub fn start(&mut self, pattern: Name, out: &mut Outbox<A>) -> Result<u8, NbpFault>
        ensures drawn { IfOk result (λ id. next_id self.old ≡ Some id) }
        ensures state { IfOk result (λ id. self.new ≡ begun self.old (beginning id pattern)) }
        ensures sent { IfOk result (λ id. Sends out.old out.new (sent_question self.old (beginning id pattern) ∷ [])) }
        ensures full { IsErrOf result NbpFault.LookupsFull ↔ (8 ≤ length self.old.searches) }
        ensures free { IfErr result (λ fault. fault ≢ NbpFault.LookupsFull → IsSome (next_id self.old)) }
        ensures memory { IfErr result (λ fault. fault ≢ NbpFault.LookupsFull → fault ≡ NbpFault.NoMemory) }
        ensures unchanged { OnErr result (self.new ≡ self.old) }
        ensures nothing_sent { OnErr result (Sends out.old out.new []) }
    {
        let Some(id) = self.next_id() else {
            return Err(NbpFault::LookupsFull);
        };
        let search = Search::begin(self.alloc, id, pattern);
        self.searches.reserve(1)?;
        self.ask(&search, out)?;
        self.searches.push(search).unwrap();
        self.next = id.wrapping_add(1);
        Ok(id)
    }

    /// Takes a packet, and returns how many finds are new. Only a reply to an open lookup has any: each of its tuples
    /// that matches and is new, while there are fewer than 256. If none is new, this needs no memory. The error is out
    /// of memory.
    pub fn receive(&mut self, packet: &Packet<'_>) -> Result<usize, AllocError>
        ensures count { IfOk result (λ count. count ≡ (heard self.old (packet_content packet.now)).count) }
        ensures state { OnOk result (self.new ≡ (heard self.old (packet_content packet.now)).after) }
        ensures unchanged { OnErr result (self.new ≡ self.old) }
        ensures ignored { (heard self.old (packet_content packet.now)).count ≡ 0 → IsOk result }
    {
        if !packet.function.is_reply() {
            return Ok(0);
        }
        let Some(index) = index_of(&self.searches, packet.id) else {
            return Ok(0);
        };
        let search = &mut self.searches[index];
        search.hear(&packet.tuples)
    }

    /// Asks again for the open lookup of this identifier.
    pub fn retry(&self, id: u8, out: &mut Outbox<A>) -> Result<(), NbpFault>
        ensures ok { OnOk result (IfSome (search_of self.now id) (λ s. Sends out.old out.new
            (sent_question self.now s ∷ []))) }
        ensures missing { IsErrOf result NbpFault.NoSuchLookup ↔ (search_of self.now id ≡ None) }
        ensures memory { IfErr result (λ fault. fault ≢ NbpFault.NoSuchLookup → fault ≡ NbpFault.NoMemory) }
        ensures nothing_sent { OnErr result (Sends out.old out.new []) }
    {
        let Some(search) = search_of(&self.searches, id) else {
            return Err(NbpFault::NoSuchLookup);
        };
        self.ask(search, out)?;
        Ok(())
    }

    /// How many lookups are open.
    pub fn open_count(&self) -> usize
        ensures { result ≡ length self.now.searches }
    {
        self.searches.len()
    }

    /// The identifier of the open lookup at a place. The one that began first has place 0.
    pub fn id_at(&self, place: usize) -> u8
        requires { place < length self.now.searches }
        ensures { IfSome (slice_get self.now.searches place) (λ s. result ≡ s.id) }
    {
        self.searches[place].id
    }

    /// How many finds the open lookup of this identifier has.
    pub fn count(&self, id: u8) -> Result<usize, NbpFault>
        ensures { result ≡ counted (search_of self.now id) }
    {
        match search_of(&self.searches, id) {
            Some(search) => Ok(search.finds.len()),
            None => Err(NbpFault::NoSuchLookup),
        }
    }

    /// The find at a place of the open lookup of this identifier. The first has place 0.
    pub fn find(&self, id: u8, place: usize) -> &Find
        requires { place < length (finds_in (search_of self.now id)) }
        ensures { slice_get (finds_in (search_of self.now id)) place ≡ Some result.now }
    {
        let search = search_of(&self.searches, id).unwrap();
        &search.finds.as_slice()[place]
    }

    /// Closes the lookup of this identifier and drops its finds. This needs no memory.
    pub fn finish(&mut self, id: u8) -> Result<(), NbpFault>
        ensures ok { OnOk result (self.new ≡ closed self.old id) }
        ensures unchanged { OnErr result (self.new ≡ self.old) }
        ensures found { IsOk result ↔ IsSome (search_of self.old id) }
        ensures refuses { IfErr result (λ fault. fault ≡ NbpFault.NoSuchLookup) }
    {
        let Some(index) = index_of(&self.searches, id) else {
            return Err(NbpFault::NoSuchLookup);
        };
        drop(self.searches.remove(index));
        Ok(())
    }

    fn ask(&self, search: &Search<A>, out: &mut Outbox<A>) -> Result<(), AllocError>
        ensures ok { OnOk result (Sends out.old out.new (sent_question self.now search.now ∷ [])) }
        ensures err { OnErr result (Sends out.old out.new []) }
    {
        let tuple = search.tuple(self.own);
        send_one(self.alloc, self.function, search.id, &tuple, self.to, out)
    }
}

fn is_open<A: Allocator>(searches: &[Search<A>], id: u8) -> bool
    ensures { result ≡ list_any (has_id id) searches.now }
{
    searches.iter().any(|search| search.id == id)
}

fn search_of<A: Allocator>(searches: &[Search<A>], id: u8) -> Option<&Search<A>>
    ensures { option_copied result ≡ find (has_id id) searches.now }
{
    searches.iter().find(|search| search.id == id)
}

fn index_of<A: Allocator>(searches: &[Search<A>], id: u8) -> Option<usize>
    ensures { result ≡ position_from (has_id id) 0 searches.now }
{
    searches.iter().position(|search| search.id == id)
}

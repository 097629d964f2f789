//! The socket of a node for names, and the calls that only one of its tables has a part in.
ghost use Rattle.std.specs.Prelude.{◌≡◌, ◌≢◌, ◌≤◌, ◌↔◌, ◌∷◌, [], length, find, is_some, IfOk, IfErr, IfSome, OnOk};
ghost use Rattle.std.specs.Prelude.{OnErr, IsOk, IsSome, IsErrOf, Some, None, Err, ◌<◌, slice_get};
ghost use Rattle.at_ddp.specs.Sending.{Sends};
ghost use Rattle.at_ddp.specs.Tables.{without_first};
ghost use Rattle.at_name_socket.specs.NameSockets.{asked_by, asked_node, opening};
ghost use Rattle.at_nbp.specs.Lookups.{AreLookups, beginning, begun, next_id, search_of, sent_question};
ghost use Rattle.at_nbp.specs.NameTables.{AreNames, is_called, register_fault, registered};

use crate::claim::Claim;
use crate::neighbour::Neighbour;
use at_ddp::{Address, Listed, Outbox, Pascal};
use at_nbp::laws::a_table_with_one_name_more_is_computed;
use at_nbp::{Function, Lookup, Name, Names, NbpFault};
use std::alloc::{Allocator, Global};
use std::marker::Model;

/// The socket for names, the same at every node.
pub const NAME_SOCKET: u8 = 2;

/// The node number that means every node.
pub(crate) const EVERY_NODE: u8 = 255;

/// The names of a node, its lookups, and what a router needs to relay the lookups of others.
#[derive(Drop)]
pub struct NameSocket<A: Allocator = Global> {
    pub(crate) alloc: A,
    pub(crate) names: Names<A>,
    pub(crate) lookups: Lookup<A>,
    // Which of the lookups are claims.
    pub(crate) claims: Vec<Claim, A>,
    // The nodes of the cable, if this node is its router.
    pub(crate) neighbours: Option<Listed<Neighbour, A>>,
}

impl<A: Allocator> Model for NameSocket<A> {
    ghost use Rattle.at_name_socket.specs.NameSockets.{SocketState};

    ghost Value = { SocketState };

    ghost view = { λ s. record {
      table = s.names;
      lookups = s.lookups;
      claims = s.claims.items;
      neighbours = s.neighbours;
    } };
}

impl<A: Allocator + Copy> NameSocket<A> {
    /// The socket of a node of a network, without names or lookups. `router` is the number of the cable's router, if it
    /// has one: lookups ask it by a BrRq, and without one every node by a LkUp. `zone` is the zone of the node's names,
    /// and `neighbours` are the nodes of the cable, if this node is the router.
    pub fn new(
        alloc: A,
        net: u16,
        node: u8,
        router: Option<u8>,
        zone: Option<Pascal>,
        neighbours: Option<Listed<Neighbour, A>>,
    ) -> NameSocket<A>
        ensures { result ≡ opening net node router zone neighbours }
    {
        let own = Address {
            net,
            node,
            socket: NAME_SOCKET,
        };
        NameSocket {
            alloc,
            names: Names::new(alloc, own, zone),
            lookups: lookups_of(alloc, own, router),
            claims: Vec::new(alloc),
            neighbours,
        }
    }

    /// There are at most 64 names and 8 open lookups. The body only visits them.
    pub fn limits(&self)
        ensures names { AreNames self.now.table.names }
        ensures lookups { AreLookups self.now.lookups }
    {
        self.names.limits();
        self.lookups.limits();
    }

    /// Registers a name of a socket, with the least enumerator that is free there.
    pub fn register(&mut self, object: Pascal, kind: Pascal, socket: u8) -> Result<(), NbpFault>
        ensures ok { OnOk result (self.new
            ≡ record self.old { table = registered self.old.table object kind socket }) }
        ensures unchanged { OnErr result (self.new ≡ self.old) }
        ensures refuses { IfSome (register_fault self.old.table.names object kind) (λ fault. result ≡ Err fault) }
        ensures memory { IfErr result (λ fault. register_fault self.old.table.names object kind ≡ None
            → fault ≡ NbpFault.NoMemory) }
    {
        a_table_with_one_name_more_is_computed();
        self.names.register(object, kind, socket)
    }

    /// Takes a name away. This needs no memory.
    pub fn unregister(&mut self, object: &Pascal, kind: &Pascal) -> Result<(), NbpFault>
        ensures ok { OnOk result (self.new ≡ record self.old {
          table = record self.old.table {
            names = without_first (is_called object.now kind.now) self.old.table.names;
          };
        }) }
        ensures unchanged { OnErr result (self.new ≡ self.old) }
        ensures found { IsOk result ↔ IsSome (find (is_called object.now kind.now) self.old.table.names) }
        ensures refuses { IfErr result (λ fault. fault ≡ NbpFault.NoSuchName) }
    {
        self.names.unregister(object, kind)
    }

    /// The identifier that the next lookup will get; none if 8 are open.
    pub fn next_id(&self) -> Option<u8>
        ensures { result ≡ next_id self.now.lookups }
    {
        self.lookups.next_id()
    }

    /// How many lookups are open.
    pub fn open_count(&self) -> usize
        ensures { result ≡ length self.now.lookups.searches }
    {
        self.lookups.open_count()
    }

    /// The identifier of the open lookup at a place. The one that began first has place 0.
    pub fn id_at(&self, place: usize) -> u8
        requires { place < length self.now.lookups.searches }
        ensures { IfSome (slice_get self.now.lookups.searches place) (λ s. result ≡ s.id) }
    {
        self.lookups.id_at(place)
    }

    /// Begins a lookup and returns its identifier.
    pub fn find(&mut self, pattern: Name, out: &mut Outbox<A>) -> Result<u8, NbpFault>
        ensures drawn { IfOk result (λ id. next_id self.old.lookups ≡ Some id) }
        ensures state { IfOk result (λ id. self.new
            ≡ record self.old { lookups = begun self.old.lookups (beginning id pattern) }) }
        ensures sent { IfOk result (λ id. Sends out.old out.new
            (sent_question self.old.lookups (beginning id pattern) ∷ [])) }
        ensures full { IsErrOf result NbpFault.LookupsFull ↔ (8 ≤ length self.old.lookups.searches) }
        ensures free { IfErr result (λ fault. fault ≢ NbpFault.LookupsFull → IsSome (next_id self.old.lookups)) }
        ensures memory { IfErr result (λ fault. fault ≢ NbpFault.LookupsFull → fault ≡ NbpFault.NoMemory) }
        ensures unchanged { OnErr result (self.new ≡ self.old) }
        ensures nothing_sent { OnErr result (Sends out.old out.new []) }
    {
        self.lookups.start(pattern, out)
    }

    /// Asks again for the open lookup of this identifier.
    pub fn retry(&self, id: u8, out: &mut Outbox<A>) -> Result<(), NbpFault>
        ensures ok { OnOk result (IfSome (search_of self.now.lookups id) (λ s. Sends out.old out.new
            (sent_question self.now.lookups s ∷ []))) }
        ensures missing { IsErrOf result NbpFault.NoSuchLookup ↔ (search_of self.now.lookups id ≡ None) }
        ensures memory { IfErr result (λ fault. fault ≢ NbpFault.NoSuchLookup → fault ≡ NbpFault.NoMemory) }
        ensures nothing_sent { OnErr result (Sends out.old out.new []) }
    {
        self.lookups.retry(id, out)
    }
}

// The lookups of a socket. They ask the router, or every node if there is none.
fn lookups_of<A: Allocator + Copy>(alloc: A, own: Address, router: Option<u8>) -> Lookup<A>
    ensures { result ≡ record {
      own = own;
      to = record { net = own.net; node = asked_node router; socket = own.socket };
      function = asked_by router;
      next = 0;
      searches = [];
    } }
{
    let node = router.unwrap_or(EVERY_NODE);
    let function = if router.is_some() {
        Function::BroadcastRequest
    } else {
        Function::LookUp
    };
    Lookup::new(alloc, own, Address { node, ..own }, function)
}

//! Laws of the socket in a network of names and lookups. The functions do nothing: each contract is a law.
ghost use Rattle.std.specs.Prelude.{◌≡◌, ℕ, ◌<◌, ◌≤◌, List, [], ◌∷◌, length, Option, Some, None};
ghost use Rattle.std.specs.List.{AllByRecursion};
ghost use Rattle.at_ddp.specs.declared.address.Address.{Address};
ghost use Rattle.at_name_socket.specs.NameSockets.{Hears, SocketState, any_pattern, claim_begun, finish, finish_fault};
ghost use Rattle.at_name_socket.specs.NameSockets.{opening, own_zone};
ghost use Rattle.at_name_socket.specs.Sockets.{Closes, IsSocket, Opens, Stays};
ghost use Rattle.at_name_socket.specs.Steps.{Comes, Happens, StandsLawfully};
ghost use Rattle.at_name_socket.specs.declared.neighbour.Neighbour.{Neighbour};
ghost use Rattle.at_name_socket.specs.declared.step.Heard.{Heard};
ghost use Rattle.at_ddp.specs.Tables.{without_first};
ghost use Rattle.at_nbp.specs.Lawfully.{IsName};
ghost use Rattle.at_nbp.specs.Lookups.{Search, begun, beginning, next_id, search_of, sent_question};
ghost use Rattle.at_nbp.specs.NameTables.{AreNames, is_called, register_fault, registered};
ghost use Rattle.at_nbp.specs.Network.{Network};
ghost use Rattle.at_nbp.specs.Tuples.{IsString};
ghost use Rattle.at_nbp.specs.declared.name.Name.{Name};

use std::alloc::Allocator;

/// Each call that is not refused is one happening of the network: by it the socket becomes what the call makes of it,
/// all others stay, and what is sent is what the call sends. A lookup is opened or closed as the call says.
pub fn a_call_is_a_happening<A: Allocator>()
    ensures find { (n : Network) (at : Address) (s : SocketState) (id : ℕ) (pattern : Name) → StandsLawfully n at s
        → IsName pattern → next_id s.lookups ≡ Some id
        → Happens n at s (record s { lookups = begun s.lookups (beginning id pattern) }) (Opens id pattern None)
        (sent_question s.lookups (beginning id pattern) ∷ []) }
    ensures claim { (n : Network) (at : Address) (s : SocketState) (id : ℕ) (object kind : List ℕ) (socket : ℕ)
        → StandsLawfully n at s → IsString object → IsString kind → socket < 256 → next_id s.lookups ≡ Some id
        → Happens n at s (claim_begun s id object kind socket) (Opens id (any_pattern object kind)
        (Some (record { id = id; object = object; kind = kind; socket = socket })))
        (sent_question s.lookups (beginning id (any_pattern object kind)) ∷ []) }
    ensures retry { (n : Network) (at : Address) (s : SocketState) (id : ℕ) (search : Search) → StandsLawfully n at s
        → search_of s.lookups id ≡ Some search → Happens n at s s Stays (sent_question s.lookups search ∷ []) }
    ensures register { (n : Network) (at : Address) (s : SocketState) (object kind : List ℕ) (socket : ℕ)
        → StandsLawfully n at s → IsString object → IsString kind → socket < 256
        → register_fault s.table.names object kind ≡ None
        → Happens n at s (record s { table = registered s.table object kind socket }) Stays [] }
    ensures unregister { (n : Network) (at : Address) (s : SocketState) (object kind : List ℕ) → StandsLawfully n at s
        → Happens n at s (record s {
          table = record s.table {
            names = without_first (is_called object kind) s.table.names;
          };
        }) Stays [] }
    ensures finish { (n : Network) (at : Address) (s : SocketState) (id : ℕ) → StandsLawfully n at s
        → finish_fault s id ≡ None → Happens n at s (finish {A = A} s id).state (Closes id) [] }
{
    at_nbp::laws::finds_stood_since_their_lookup_began();
}

/// So is each packet that comes in time.
pub fn a_packet_is_a_happening()
    ensures comes { (n : Network) (at : Address) (s : SocketState) (datagram : ℕ) (h : Heard) (new : SocketState)
        (pushes : List (Address × List ℕ)) → StandsLawfully n at s → Comes n at s datagram h new pushes
        → Happens n at s new Stays pushes }
    ensures nothing { (n : Network) (at : Address) (s : SocketState) → StandsLawfully n at s
        → Happens n at s s Stays [] }
{}

/// A packet is answered by no more replies than there are names, or it is relayed once.
pub fn few_packets_are_sent()
    ensures { (s : SocketState) (bytes : List ℕ) (h : Heard) (new : SocketState) (pushes : List (Address × List ℕ))
        → AreNames s.table.names → Hears s bytes h new pushes → length pushes ≤ 64 }
{}

/// A new socket has neither claims nor lookups, and its zones are in range if those are that it is given.
pub fn a_new_socket_is_lawful()
    ensures { (net node : ℕ) (router : Option ℕ) (zone : Option (List ℕ)) (neighbours : Option (List Neighbour))
        → IsString (own_zone zone) → ((ns : List Neighbour) → neighbours ≡ Some ns
        → AllByRecursion (λ n. IsString n.zone) ns) → IsSocket (opening net node router zone neighbours) }
{}

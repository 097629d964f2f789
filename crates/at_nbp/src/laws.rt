//! Laws of packets, and of a network of names and lookups. The functions do nothing: each contract is a law.
ghost use Rattle.std.specs.Prelude.{◌≡◌, ℕ, ◌<◌, ◌≤◌, ◌++◌, length, Bool, List, [], Some, None, IfSome};
ghost use Rattle.std.specs.List.{AllByRecursion};
ghost use Rattle.at_ddp.specs.Datagram.{AreBytes};
ghost use Rattle.at_ddp.specs.declared.address.Address.{Address};
ghost use Rattle.at_nbp.specs.Askers.{IsAskedBy, IsSentFor};
ghost use Rattle.at_nbp.specs.Packets.{Content, IsLawful, BeginsWith, spelling};
ghost use Rattle.at_nbp.specs.Fault.{IsFirstFault};
ghost use Rattle.at_nbp.specs.Lawfully.{IsInRange, IsLawfulSetting, IsLawfullySent, IsNamed};
ghost use Rattle.at_nbp.specs.Lookups.{Lookups, next_id, search_of};
ghost use Rattle.at_nbp.specs.NameTables.{IsRegistered, Table, registered};
ghost use Rattle.at_nbp.specs.Network.{Setting, Happening, AllAsk, AllTimely, FindsStood, after};
ghost use Rattle.at_nbp.specs.declared.fault.NbpFault.{NbpFault};

/// What is written is read, whatever follows. It is bytes.
pub fn what_is_written_is_read()
    ensures bytes { (p : Content) → IsLawful p → AreBytes (spelling p) }
    ensures read { (p : Content) (rest : List ℕ) → IsLawful p → BeginsWith (spelling p ++ rest) p rest }
{}

/// Bytes begin with one packet at most: no spelling begins another, and no packet has a fault.
pub fn one_packet_a_spelling()
    ensures packet { (input : List ℕ) (p q : Content) (rest other : List ℕ) → BeginsWith input p rest
        → BeginsWith input q other → (p ≡ q) × (rest ≡ other) }
    ensures begins { (p q : Content) (rest : List ℕ) → IsLawful p → IsLawful q → spelling p ≡ spelling q ++ rest
        → (p ≡ q) × (rest ≡ []) }
    ensures faultless { (input : List ℕ) (p : Content) (rest : List ℕ) → BeginsWith input p rest → (fault : NbpFault)
        → ¬ IsFirstFault fault input }
{}

/// Packets may be lost, repeated or reordered, but no reply outlives the identifier that it carries. Then each find of
/// an open lookup matches its pattern, and was one of the names of the node of its address, with that socket and
/// enumerator, at some moment since the lookup began. The finds of a lookup differ from each other. No open lookup has
/// the identifier of the next one.
pub fn finds_stood_since_their_lookup_began()
    ensures stood { (setting : Setting) (history : List Happening) → AllAsk setting → AllTimely setting history
        → FindsStood setting history }
    ensures drawn { (l : Lookups) (id : ℕ) → next_id l ≡ Some id → search_of l id ≡ None }
{}

/// A table of lookups has no identifier to give only if 8 lookups are open.
pub fn below_8_an_identifier_is_free()
    ensures { (l : Lookups) → l.next < 256 → next_id l ≡ None → 8 ≤ length l.searches }
{}

/// A table with one name more is the one that is computed: the name has the least number that is free.
pub fn a_table_with_one_name_more_is_computed()
    ensures least { (object kind : List ℕ) (socket : ℕ) (old : Table)
        → IsRegistered object kind socket old (registered old object kind socket) }
    ensures computed { (object kind : List ℕ) (socket : ℕ) (old new : Table) → IsRegistered object kind socket old new
        → new ≡ registered old object kind socket }
{}

/// All that is sent fits a datagram, and each name of a node is in range, if what is asked and registered is. If
/// lookups are asked at some addresses alone, replies go to these alone, and all else asks for these.
pub fn what_is_sent_is_lawful()
    ensures lawful { (setting : Setting) (history : List Happening) → IsLawfulSetting setting
        → AllTimely setting history → AllByRecursion IsInRange history
        → AllByRecursion (λ o. IfSome o IsLawfullySent) (after setting history).sent }
    ensures asked { (these : Address → Bool) (setting : Setting) (history : List Happening) → AllAsk setting
        → AllTimely setting history → AllByRecursion (IsAskedBy these) history
        → AllByRecursion (λ o. IfSome o (IsSentFor these)) (after setting history).sent }
    ensures named { (setting : Setting) (history : List Happening) → IsLawfulSetting setting
        → AllTimely setting history → AllByRecursion IsInRange history → (at : Address)
        → AllByRecursion IsNamed ((after setting history).tables at).names }
{}

//! Laws of how datagrams are spelled. The functions do nothing: each contract is a law.
ghost use Rattle.std.specs.Prelude.{◌≡◌, ◌<◌, ◌≤◌, ◌++◌, List, ℕ, length};
ghost use Rattle.at_ddp.specs.declared.address.Address.{Address};
ghost use Rattle.at_ddp.specs.Datagram.{Content, IsAddress, AreBytes, Spells, BeginsWith, canonical, written};
ghost use Rattle.at_ddp.specs.Fault.{Stands};
ghost use Rattle.at_ddp.specs.declared.fault.DdpFault.{DdpFault};

/// No spelling is the beginning of another, and no bytes spell two datagrams.
pub fn no_spelling_begins_another()
    ensures { (a b x y : List ℕ) (d e : Content) → Spells a d → Spells b e → a ++ x ≡ b ++ y → (a ≡ b) × (d ≡ e) }
{}

/// An encoded datagram is decoded again, whatever follows it. Nothing else is read there, and no fault is found there.
pub fn what_is_written_is_read()
    ensures read { (to from : Address) (kind : ℕ) (bytes rest : List ℕ) → IsAddress to → IsAddress from → kind < 256
        → AreBytes bytes → length bytes ≤ 586
        → BeginsWith (canonical to from kind bytes ++ rest) (written to from kind bytes) rest }
    ensures alone { (input : List ℕ) (d e : Content) (x y : List ℕ) → BeginsWith input d x → BeginsWith input e y
        → (d ≡ e) × (x ≡ y) }
    ensures faultless { (input : List ℕ) (d : Content) (rest : List ℕ) → BeginsWith input d rest → (fault : DdpFault)
        → ¬ Stands fault input }
{}

/// The protocol of an encoded datagram is read as it was written, also if fields are out of range.
pub fn the_protocol_is_read_as_written()
    ensures { (to from : Address) (kind : ℕ) (bytes rest : List ℕ) (d : Content)
        → BeginsWith (canonical to from kind bytes) d rest → d.kind ≡ kind }
{}

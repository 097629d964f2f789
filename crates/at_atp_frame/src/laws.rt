//! The laws of spellings. The functions do nothing: each contract is a law.
ghost use Rattle.std.specs.Prelude.{◌≡◌, ◌≤◌, List, ℕ, length};
ghost use Rattle.at_ddp.specs.Datagram.{AreBytes};
ghost use Rattle.at_atp_frame.specs.Fault.{Stands};
ghost use Rattle.at_atp_frame.specs.Frames.{Content, IsLawful, Spells, spelled};
ghost use Rattle.at_atp_frame.specs.declared.fault.AtpFault.{AtpFault};

/// An encoded packet is decoded again, no bytes spell two packets, and no fault is found in a spelling.
pub fn what_is_written_is_read()
    ensures read { (f : Content) → IsLawful f → Spells (spelled f) f }
    ensures alone { (input : List ℕ) (f g : Content) → Spells input f → Spells input g → f ≡ g }
    ensures faultless { (input : List ℕ) (f : Content) → Spells input f → (fault : AtpFault) → ¬ Stands fault input }
{}

/// An encoded packet is bytes, and fits a datagram.
pub fn what_is_written_fits()
    ensures { (f : Content) → IsLawful f → AreBytes (spelled f) × (length (spelled f) ≤ 586) }
{}

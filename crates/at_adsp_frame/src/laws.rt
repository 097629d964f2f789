//! The laws of spellings. The functions do nothing: each contract is a law.
ghost use Rattle.std.specs.Prelude.{◌≡◌, ◌+◌, ◌≤◌, List, ℕ, length};
ghost use Rattle.at_ddp.specs.Datagram.{AreBytes};
ghost use Rattle.at_adsp_frame.specs.Fault.{IsFirstFault};
ghost use Rattle.at_adsp_frame.specs.Segments.{Content, IsLawful, Spells, fields_of, spelled};
ghost use Rattle.at_adsp_frame.specs.declared.fault.AdspFault.{AdspFault};

/// An encoded segment is decoded again, no bytes spell two segments, and no fault is found in a spelling.
pub fn what_is_written_is_read()
    ensures read { (s : Content) → IsLawful s → Spells (spelled s) s }
    ensures alone { (input : List ℕ) (s t : Content) → Spells input s → Spells input t → s ≡ t }
    ensures faultless { (input : List ℕ) (s : Content) → Spells input s → (fault : AdspFault)
        → ¬ IsFirstFault fault input }
{}

/// An encoded segment is bytes, and fits a datagram.
pub fn what_is_written_fits()
    ensures { (s : Content) → IsLawful s → AreBytes (spelled s) × (length (spelled s) ≤ 586) }
{}

/// An encoded segment has a header of 13 bytes, and then the fields of its body.
pub fn what_is_written_is_a_header_and_fields()
    ensures { (s : Content) → length (spelled s) ≡ 13 + length (fields_of s.body) }
{}

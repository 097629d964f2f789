//! Laws of frames. The functions do nothing: each contract is a law.
ghost use Rattle.std.specs.Prelude.{◌≡◌, ◌≤◌, ◌++◌, List, ℕ, length};
ghost use Rattle.at_frames.specs.Carried.{Load};
ghost use Rattle.at_frames.specs.Carries.{Carries, LiesIn};
ghost use Rattle.at_frames.specs.EtherTalk.{ethertalk_header, ethertalk_load};

/// A frame carries one datagram at most.
pub fn a_frame_carries_one_datagram()
    ensures { (link_type : ℕ) (frame : List ℕ) (d e : Load) → Carries link_type frame d → Carries link_type frame e
        → d ≡ e }
{}

/// The bytes of a datagram lie within the captured bytes of its frame.
pub fn a_datagram_lies_in_its_frame()
    ensures { (link_type : ℕ) (frame : List ℕ) (d : Load) → Carries link_type frame d → LiesIn d.bytes frame }
{}

/// What is written as a frame of EtherTalk carries what was written, whatever padding follows.
pub fn what_is_written_is_carried()
    ensures { (to from bytes padding : List ℕ) → length to ≡ 6 → length from ≡ 6 → length bytes ≤ 1492
        → Carries 1 (ethertalk_header to from (length bytes) ++ (bytes ++ padding)) (ethertalk_load to from bytes) }
{}

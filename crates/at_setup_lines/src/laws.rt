//! What holds of every setup of which some lines are read.
ghost use Rattle.std.specs.Prelude.{◌≡◌, ◌≤◌, ◌+◌, ◌++◌, nat_le, false, true, length, List, ℕ};
ghost use Rattle.std.specs.List.{list_all};
ghost use Rattle.at_setup.specs.declared.setup.NodeSetup.{NodeSetup as Placed};
ghost use Rattle.at_setup.specs.declared.setup.Setup.{Setup as Said};
ghost use Rattle.at_setup_lines.specs.Drafts.{Draft, IsDraft, has_events};
ghost use Rattle.at_setup_lines.specs.Endings.{CanEnd, HasPlace};
ghost use Rattle.at_setup_lines.specs.FirstWords.{HaveHeads};
ghost use Rattle.at_setup_lines.specs.NodeLists.{lacks_router};
ghost use Rattle.at_setup_lines.specs.SetupLines.{IsSetup};

use std::alloc::Allocator;

/// With a line more at most, the lines that were read are a setup.
pub fn each_draft_can_end<A: Allocator>()
    ensures { (most : ℕ) (d : Draft) (lines : List (List (List ℕ))) → HasPlace most d → IsDraft lines d
        → CanEnd A most d lines }
{}

/// Each line of a setup begins with one of four words.
pub fn lines_begin_with_known_words<A: Allocator>()
    ensures setups { (lines : List (List (List ℕ))) (s : Said A) → IsSetup lines s → HaveHeads lines }
    ensures drafts { (lines : List (List (List ℕ))) (d : Draft) → IsDraft lines d → HaveHeads lines }
{}

/// Some lines say the nodes of one setup. Lines that begin a setup say the first of its nodes.
pub fn lines_say_one_setup<A: Allocator>()
    ensures same { (d : Draft) (lines : List (List (List ℕ))) (s : Said A) → IsDraft lines d → IsSetup lines s
        → s.nodes ≡ d.nodes }
    ensures first { (d : Draft) (lines more : List (List (List ℕ))) (s : Said A) → has_events d ≡ false
        → IsDraft lines d → IsSetup (lines ++ more) s → (rest : List Placed) × (s.nodes ≡ d.nodes ++ rest) }
{}

/// No router can follow nodes that have all numbers up to the largest, where a port is as far above the number as
/// `first`, and `most` at most.
pub fn a_router_wants_a_number<A: Allocator>()
    ensures { (first most : ℕ) (d : Draft) (lines more : List (List (List ℕ))) (s : Said A)
        → lacks_router d.nodes ≡ true → has_events d ≡ false → most ≤ first + length d.nodes → IsDraft lines d
        → IsSetup (lines ++ more) s → ¬ (list_all (λ n. nat_le (first + n.node) most) s.nodes ≡ true) }
{}

//! What holds of the lines of a drive.
ghost use Rattle.std.specs.Prelude.{◌≡◌, ◌∷◌, ◌++◌, [], Bool, List, ℕ, true};
ghost use Rattle.at_setup.specs.declared.setup.Setup.{Setup as Said};
ghost use Rattle.at_drive.specs.Steps.{has_all};
ghost use Rattle.at_drive.specs.declared.step.Step.{Step as Move};
ghost use Rattle.at_drive_lines.specs.Drafts.{BeginsSo, words_in};
ghost use Rattle.at_drive_lines.specs.Says.{AreDrive};
ghost use Rattle.at_drive_lines.specs.StepLines.{IsUnfit, SaySteps, step_words};

use at_setup_lines::laws::lines_begin_with_known_words;
use std::alloc::Allocator;

/// A step line of a drive says a step that a node of its setup takes, and only such lines come after a step. So each
/// line can be read once more.
pub fn each_line_can_be_read<A: Allocator>()
    ensures { (setup : Said A) (port : ℕ) (lines read later : List (List ℕ)) (line : List ℕ) (after_step : Bool)
        → BeginsSo setup port lines → lines ≡ read ++ line ∷ later → (after_step ≡ true → ¬ (step_words read ≡ []))
        → ¬ IsUnfit setup after_step line }
{
    lines_begin_with_known_words::<A>();
}

/// Steps that the step lines of a drive say, and that nodes of its setup take, are those of the drive.
pub fn steps_that_are_said_are_the_drive<A: Allocator>()
    ensures { (setup : Said A) (port : ℕ) (lines : List (List ℕ)) (steps : List (Move A))
        → BeginsSo setup port lines → SaySteps lines steps → has_all setup steps ≡ true
        → AreDrive (words_in lines) setup port steps }
{
    lines_begin_with_known_words::<A>();
}

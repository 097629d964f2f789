//! What holds of the lines of a text.
ghost use Rattle.std.specs.Prelude.{◌≡◌, ◌<◌, ◌∷◌, ◌++◌, [], List, ℕ, filter, length, true};
ghost use Rattle.std.specs.Io.BufRead.{drop_through, first_piece};
ghost use Rattle.at_schedule.specs.Schedules.{AreInOrder, is_event_line, is_setup_line, lines_in};

/// The first line ends at the first line feed, and the others follow it.
pub fn first_line()
    ensures { (rest : List ℕ) → 0 < length rest
        → lines_in rest ≡ first_piece 10 rest ∷ lines_in (drop_through 10 rest) }
{}

/// No event comes before a line of the setup.
pub fn setup_comes_first()
    ensures { (read later : List (List ℕ)) (line : List ℕ) → AreInOrder (read ++ line ∷ later)
        → is_setup_line line ≡ true → filter is_event_line read ≡ [] }
{}

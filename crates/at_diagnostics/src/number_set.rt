//! Which numbers of refusals were reported.
ghost use Rattle.std.specs.Prelude.{◌≡◌, ◌↔◌, ◌⊎◌, ℕ, true};
ghost use Rattle.at_diagnostics.specs.NumberSets.{HasNumber};

/// A set of the numbers 0 to 255. It needs no memory of an allocator.
#[derive(Drop)]
pub(crate) struct NumberSet {
    has: [bool; 256],
}

impl NumberSet {
    /// No number is in it.
    pub(crate) fn new() -> NumberSet
        ensures { (n : ℕ) → ¬ HasNumber result.has n }
    {
        NumberSet { has: [false; 256] }
    }

    /// Takes a number in, and answers whether it is new.
    pub(crate) fn insert(&mut self, number: u8) -> bool
        ensures fresh { (result ≡ true) ↔ ¬ HasNumber self.old.has number }
        ensures taken { (n : ℕ) → HasNumber self.new.has n ↔ ((n ≡ number) ⊎ HasNumber self.old.has n) }
    {
        let place = usize::from(number);
        let is_fresh = !self.has[place];
        self.has[place] = true;
        is_fresh
    }
}

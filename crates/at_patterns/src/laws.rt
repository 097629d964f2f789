//! What a wildcard stands for. The function does nothing: its contract is the law.
ghost use Rattle.std.specs.Prelude.{◌≡◌, ◌↔◌, true, false, List, ℕ, ◌∷◌, ◌++◌};
ghost use Rattle.std.specs.List.{AllByRecursion};
ghost use Rattle.at_ddp.specs.Text.{folded};
ghost use Rattle.at_patterns.specs.Patterns.{is_any_text, is_wildcard, same_text, stands_for};

/// The first byte 0xC5 of an object or a type stands for any bytes, the case of letters aside: the text is the bytes
/// before it, any bytes, and the bytes after it. Without one it stands for the same text, if it is not `=`.
pub fn a_wildcard_stands_for_any_bytes()
    ensures wild { (before after text : List ℕ) → AllByRecursion (λ byte. is_wildcard byte ≡ false) before
        → (stands_for (before ++ 0xC5 ∷ after) text ≡ true)
        ↔ ((any : List ℕ) × (folded text ≡ folded before ++ (any ++ folded after))) }
    ensures plain { (pattern text : List ℕ) → AllByRecursion (λ byte. is_wildcard byte ≡ false) pattern
        → is_any_text pattern ≡ false → stands_for pattern text ≡ same_text pattern text }
{}

//! The names of a zone table.
ghost use Rattle.std.specs.Prelude.{◌≢◌, ◌≤◌, List, ℕ, length, IfOk, IfErr};
ghost use Rattle.std.specs.List.{AllZip};
ghost use Rattle.at_words.specs.Texts.{IsZoneName};
ghost use Rattle.at_words.specs.Words.{words_of};

use at_ddp::Pascal;
use at_faults::{LineFault, Rule};
use at_words::{Words, zone_name};
use at_zip::MAX_ZONES;
use std::alloc::Allocator;

/// A name for each word, at most 1,024. A word that is no name breaks the first rule, and too many break the second.
pub(crate) fn table_of<A: Allocator>(
    alloc: A,
    words: Words<'_>,
    named: Rule,
    fits: Rule,
) -> Result<Vec<Pascal, A>, LineFault>
    ensures said { IfOk result (λ names. AllZip IsZoneName (words_of words.entry.rest.now) names.items) }
    ensures fits { IfOk result (λ names. length names.items ≤ MAX_ZONES) }
    ensures only { IfErr result (λ fault. fault ≢ LineFault.NoMemory → (names : List (List ℕ))
        → AllZip IsZoneName (words_of words.entry.rest.now) names → ¬ (length names ≤ MAX_ZONES)) }
{
    let mut names = Vec::new(alloc);
    for word in words {
        let name = zone_name(word).ok_or(LineFault::Unlawful(named))?;
        if names.len() >= MAX_ZONES {
            return Err(LineFault::Unlawful(fits));
        }
        names.push(name)?;
    }
    Ok(names)
}

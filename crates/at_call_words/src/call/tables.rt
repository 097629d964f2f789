//! The words of calls that read a zone table, or give the router one.
ghost use Rattle.std.specs.Prelude.{◌≡◌, ◌⊎◌, IfErr};
ghost use Rattle.std.specs.List.{AllZip};
ghost use Rattle.at_call_words.specs.Calls.{SaysPlain};
ghost use Rattle.at_call_words.specs.Calls.Zones.{list_word, table_word};
ghost use Rattle.at_call_words.specs.Readings.{IsFoundInMemory};
ghost use Rattle.at_words.specs.Texts.{IsText};
ghost use Rattle.at_words.specs.Words.{words_of};

use at_ddp::{Listed, Pascal};
use at_event::{Call, EventRule, ZoneCall, ZoneRule};
use at_faults::{LineFault, Rule};
use at_words::{Words, text};
use at_zip::TableChoice;
use std::alloc::Allocator;

/// `TEXT ..`. The node checks whether the texts are a zone table. A word that is no text breaks the rule.
pub(crate) fn set_zones<A: Allocator>(
    alloc: A,
    which: TableChoice,
    rule: ZoneRule,
    words: Words<'_>,
) -> Result<Call<A>, LineFault>
    ensures said { IsFoundInMemory result (SaysPlain (table_word which) (words_of words.entry.rest.now)) }
    ensures rule { IfErr result (λ fault. (fault ≡ LineFault.NoMemory)
        ⊎ (fault ≡ LineFault.Unlawful (Rule.Event (EventRule.Zones rule)))) }
{
    let names = names_of(alloc, rule, words)?;
    Ok(Call::Zones(ZoneCall::Set { which, names }))
}

// The text of each word.
fn names_of<A: Allocator>(
    alloc: A,
    rule: ZoneRule,
    words: Words<'_>,
) -> Result<Listed<Pascal, A>, LineFault>
    ensures said { IsFoundInMemory result (AllZip IsText (words_of words.entry.rest.now)) }
    ensures rule { IfErr result (λ fault. (fault ≡ LineFault.NoMemory)
        ⊎ (fault ≡ LineFault.Unlawful (Rule.Event (EventRule.Zones rule)))) }
{
    let mut names = Vec::new(alloc);
    for word in words {
        let name = text(word).ok_or(broken(rule))?;
        names.push(name)?;
    }
    Ok(Listed::from_vec(names))
}

/// No words. The word of the call says which table is read.
pub(crate) fn zones<A: Allocator>(
    which: TableChoice,
    rule: ZoneRule,
    words: Words<'_>,
) -> Result<Call<A>, LineFault>
    ensures said { IsFoundInMemory result (SaysPlain (list_word which) (words_of words.entry.rest.now)) }
    ensures rule { IfErr result (λ fault. fault ≡ LineFault.Unlawful (Rule.Event (EventRule.Zones rule))) }
{
    words.end().ok_or(broken(rule))?;
    Ok(Call::Zones(ZoneCall::Read { which }))
}

// The fault of words of zone tables that break a rule.
fn broken(rule: ZoneRule) -> LineFault
    ensures { result ≡ LineFault.Unlawful (Rule.Event (EventRule.Zones rule)) }
{
    LineFault::Unlawful(Rule::Event(EventRule::Zones(rule)))
}

//! Names and patterns, and which names a pattern matches.
ghost use Rattle.std.specs.Prelude.{◌≡◌, ◌||◌};
ghost use Rattle.at_nbp.specs.Names.{is_any_zone, is_match, same_text};

use at_ddp::{Pascal, same_text};
use at_patterns::matches_text;

/// The name of an entity, or a pattern of names. In a pattern `=` stands for any object or type, and `*` for any zone.
/// The first byte 0xC5 in another object or type of a pattern stands for zero or more bytes.
#[derive(Debug, Drop, PartialEq, Eq, Hash)]
pub struct Name {
    pub object: Pascal,
    /// The type of the object.
    pub kind: Pascal,
    pub zone: Pascal,
}

/// Whether a name matches a pattern. An empty zone of the pattern matches any zone, as `*` does.
pub fn matches(pattern: &Name, name: &Name) -> bool
    ensures { result ≡ is_match pattern.now name.now }
{
    matches_texts(
        pattern,
        name.object.bytes(),
        name.kind.bytes(),
        name.zone.bytes(),
    )
}

/// Whether an object, a type and a zone match a pattern.
pub(crate) fn matches_texts(pattern: &Name, object: &[u8], kind: &[u8], zone: &[u8]) -> bool
    ensures { result ≡ is_match pattern.now (record { object = object.now; kind = kind.now; zone = zone.now }) }
{
    matches_text(pattern.object.bytes(), object)
        && matches_text(pattern.kind.bytes(), kind)
        && matches_zone(pattern.zone.bytes(), zone)
}

fn matches_zone(pattern: &[u8], zone: &[u8]) -> bool
    ensures { result ≡ (is_any_zone pattern.now || same_text pattern.now zone.now) }
{
    is_any_zone(pattern) || same_text(pattern, zone)
}

pub(crate) fn is_any_zone(pattern: &[u8]) -> bool
    ensures { result ≡ is_any_zone pattern.now }
{
    matches!(pattern, [] | [b'*'])
}

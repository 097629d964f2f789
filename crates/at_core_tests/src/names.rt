//! Names and patterns.
use at_ddp::Pascal;
use at_nbp::{Name, matches};
use std::process::Abort;

// Object, type and zone of a pattern, and of a name, and whether the name matches.
static PATTERNS: [([&[u8]; 3], [&[u8]; 3], bool); 7] = [
    (
        [b"=", b"laserWRITER", b"*"],
        [b"Printer", b"LaserWriter", b"Lab"],
        true,
    ),
    (
        [b"=", b"=", b""],
        [b"Printer", b"LaserWriter", b"Lab"],
        true,
    ),
    (
        [b"printer", b"=", b"lab"],
        [b"Printer", b"LaserWriter", b"Lab"],
        true,
    ),
    (
        [b"printer", b"=", b"Office"],
        [b"Printer", b"LaserWriter", b"Lab"],
        false,
    ),
    (
        [b"=", b"Laser", b"*"],
        [b"Printer", b"LaserWriter", b"Lab"],
        false,
    ),
    (
        [b"*", b"=", b"*"],
        [b"Printer", b"LaserWriter", b"Lab"],
        false,
    ),
    (
        [b"\x8Arger", b"=", b"*"],
        [b"\x80rger", b"LaserWriter", b"Lab"],
        false,
    ),
];

fn text(rt: &impl Abort, bytes: &[u8]) -> Pascal {
    Pascal::new(bytes).expect(rt, "a string is too long")
}

fn name(rt: &impl Abort, texts: &[&[u8]; 3]) -> Name {
    Name {
        object: text(rt, texts[0]),
        kind: text(rt, texts[1]),
        zone: text(rt, texts[2]),
    }
}

#[test]
fn a_name_is_compared_with_a_pattern(rt: HostRuntime) {
    for (pattern, found, is_match) in PATTERNS.iter() {
        assert!(rt; matches(&name(&rt, pattern), &name(&rt, found)) == *is_match);
    }
}

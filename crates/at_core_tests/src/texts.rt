//! Texts that are the same but for the case of letters.
use at_ddp::same_text;

// Pairs of texts, and whether they are the same but for the case of letters.
static TEXTS: [(&[u8], &[u8], bool); 6] = [
    (b"LaserWriter", b"laserwriteR", true),
    (b"LaserWriter", b"LaserWriter ", false),
    // The bytes just before and after the letters, and bytes from 0x80 on.
    (b"@Z[", b"`Z{", false),
    (b"@Z[", b"@z[", true),
    (b"\xC9", b"\xE9", false),
    (b"\xC9", b"\xC9", true),
];

#[test]
fn texts_are_compared_but_for_the_case_of_letters(rt: HostRuntime) {
    for (a, b, are_same) in TEXTS.iter() {
        assert!(rt; same_text(a, b) == *are_same);
    }
}

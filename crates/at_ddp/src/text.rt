//! Texts that are the same but for the case of the letters a to z.
ghost use Rattle.std.specs.Prelude.{◌≡◌, ◌↔◌, IsTrue};
ghost use Rattle.at_ddp.specs.Text.{folded};

/// Whether two texts are the same but for the case of the letters a to z. Bytes from 0x80 on are compared as they are.
pub fn same_text(a: &[u8], b: &[u8]) -> bool
    ensures { IsTrue result ↔ (folded a.now ≡ folded b.now) }
{
    a.eq_ignore_ascii_case(b)
}

//! The lines of a source.
ghost use Rattle.std.specs.Prelude.{◌≡◌, ◌<◌, ◌∷◌, length};
ghost use Rattle.sbx_asm.specs.Items.{lines_of};

use memchr::memchr;

/// The first line of a source, without its end, and what follows it.
pub fn first_line(source: &[u8]) -> (&[u8], &[u8])
    requires { 0 < length source.now }
    ensures lines { lines_of source.now ≡ result.0.now ∷ lines_of result.1.now }
    ensures fewer { length result.1.now < length source.now }
{
    match memchr(b'\n', source) {
        Some(stop) => {
            let after = &source[stop + 1..];
            if stop > 0 && source[stop - 1] == b'\r' {
                (&source[..stop - 1], after)
            } else {
                (&source[..stop], after)
            }
        }
        None => (source, &[]),
    }
}

//! The alphabet of the data. None of its bytes is markup, so that the data can't end their element.
ghost use Rattle.std.specs.Prelude.{◌≡◌, IsTrue};
ghost use Rattle.inspect_page.specs.Alphabet.{IsPlainText, is_plain};

/// Whether a byte is a letter, a digit, a blank, a line feed, or one of `%+,-.:[]`.
fn is_plain(byte: u8) -> bool
    ensures { result ≡ is_plain byte }
{
    match byte {
        b'a'..=b'z' | b'A'..=b'Z' | b'0'..=b'9' => true,
        b'\n' | b' ' | b'%' | b'+' | b',' | b'-' | b'.' | b':' | b'[' | b']' => true,
        _ => false,
    }
}

/// The byte, or a full stop in the place of one that isn't of the alphabet.
fn plain(byte: u8) -> u8
    ensures { IsTrue (is_plain result) }
{
    if is_plain(byte) { byte } else { b'.' }
}

/// Leaves no byte that isn't of the alphabet.
pub fn make_plain(text: &mut [u8])
    ensures { IsPlainText text.new }
{
    for byte in text.iter_mut() {
        *byte = plain(*byte);
    }
}

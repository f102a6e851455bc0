//! What a program put out, as lines of text.
ghost use Rattle.std.specs.Prelude.{◌≡◌, ◌<◌, ◌++◌, OnOk, string_bytes};
ghost use Rattle.inspect_lines.specs.Output.{break, ends_line, glyph, indent, lines_text, output_text, shown_at};

use std::alloc::AllocError;

/// The last of the bytes that fit into a line.
const LAST: u8 = 23;

/// A byte as it is shown.
fn push_glyph(out: &mut String, byte: u8) -> Result<(), AllocError>
    ensures { OnOk result (string_bytes out.new ≡ string_bytes out.old ++ glyph byte) }
{
    match byte {
        b'\n' => out.push_str("\\n"),
        b'\\' => out.push_str("\\\\"),
        32..=126 => out.push(byte as char),
        _ => write!(out, "\\x{byte:02X}"),
    }
}

/// How many bytes a line has behind a byte, before which it has `place`; 0 where the byte ends it.
fn ends_line(place: u8, byte: u8) -> u8
    requires { place < 24 }
    ensures value { result ≡ ends_line place byte }
    ensures bound { result < 24 }
{
    if byte == b'\n' || place == LAST {
        0
    } else {
        place + 1
    }
}

/// A byte in its line.
fn push_at(out: &mut String, place: u8, byte: u8) -> Result<(), AllocError>
    requires { place < 24 }
    ensures { OnOk result (string_bytes out.new ≡ string_bytes out.old ++ shown_at place byte) }
{
    out.push_str(if place == 0 { "  " } else { "" })?;
    push_glyph(out, byte)?;
    out.push_str(if ends_line(place, byte) == 0 {
        "\n"
    } else {
        ""
    })
}

/// The lines of some bytes.
fn push_lines(out: &mut String, bytes: &[u8]) -> Result<(), AllocError>
    ensures { OnOk result (string_bytes out.new ≡ string_bytes out.old ++ lines_text 0 bytes.now) }
{
    let mut place = 0;
    for byte in bytes {
        push_at(out, place, *byte)?;
        place = ends_line(place, *byte);
    }
    out.push_str(if place == 0 { "" } else { "\n" })
}

/// How many bytes there are, and their lines: graphic characters and blanks as they are, a backslash doubled, a line
/// feed as `\n`, any other byte as `\xHH`. A line ends behind a line feed, and behind 24 bytes.
pub fn push_output(out: &mut String, bytes: &[u8]) -> Result<(), AllocError>
    ensures { OnOk result (string_bytes out.new ≡ string_bytes out.old ++ output_text bytes.now) }
{
    let count = bytes.len();
    writeln!(out, "output: {count} bytes")?;
    push_lines(out, bytes)
}

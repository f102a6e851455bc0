//! The lines of a file, and the words of a line.
ghost use Rattle.std.specs.Prelude.{◌≡◌, ◌==◌, ◌≤◌, ◌<◌, ◌∷◌, [], IfSome, MatchOption, length, not};
ghost use Rattle.std.specs.Char.{is_ascii_whitespace};
ghost use Rattle.std.specs.List.{prefix_len};
ghost use Rattle.inspect_start.specs.Lines.{is_text, lines_of, text_of, words_of};

/// How many bytes stand before the first such byte.
fn length_before(bytes: &[u8], byte: u8) -> usize
    ensures value { result ≡ prefix_len (λ b. not (b == byte)) bytes.now }
    ensures bound { result ≤ length bytes.now }
{
    bytes.iter().take_while(|it| **it != byte).count()
}

/// The first line of a file, without its end, and what follows that.
pub fn first_line(file: &[u8]) -> (&[u8], &[u8])
    requires { 0 < length file.now }
    ensures lines { lines_of file.now ≡ result.0.now ∷ lines_of result.1.now }
    ensures fewer { length result.1.now < length file.now }
{
    let stop = length_before(file, b'\n');
    if stop < file.len() {
        (&file[..stop], &file[stop + 1..])
    } else {
        (file, &[])
    }
}

/// What stands in a line before its comment.
pub fn text_of(line: &[u8]) -> &[u8]
    ensures { result.now ≡ text_of line.now }
{
    &line[..length_before(line, b'!')]
}

/// Whether it is ASCII.
pub fn is_text(text: &[u8]) -> bool
    ensures { result ≡ is_text text.now }
{
    text.is_ascii()
}

/// How many bytes stand before the first blank.
fn word_length(text: &[u8]) -> usize
    ensures value { result ≡ prefix_len (λ b. not (is_ascii_whitespace b)) text.now }
    ensures bound { result ≤ length text.now }
{
    text.iter()
        .take_while(|it| !it.is_ascii_whitespace())
        .count()
}

/// The first word of a text, and what follows it; none where there are blanks alone.
pub fn first_word(text: &[u8]) -> Option<(&[u8], &[u8])>
    ensures words { MatchOption result (words_of text.now ≡ []) (λ x. words_of text.now ≡ x.0.now ∷ words_of x.1.now) }
    ensures fewer { IfSome result (λ x. length x.1.now < length text.now) }
{
    let text = text.trim_ascii_start();
    if text.is_empty() {
        return None;
    }
    Some(text.split_at(word_length(text)))
}

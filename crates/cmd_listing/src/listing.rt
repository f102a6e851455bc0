//! The lines of words of code, written one after the other.
ghost use Rattle.std.specs.Prelude.{◌≡◌, ◌+◌, ◌<◌, ◌≤◌, ◌++◌, OnErr, OnOk, length};
ghost use Rattle.std.specs.Io.KnownBytes.{Appends};
ghost use Rattle.arrayvec.specs.ArrayVec.{array_vec_len};
ghost use Rattle.v8_map.specs.declared.TheConstants.{CODE_START};
ghost use Rattle.sbx_put.specs.Fronts.{WroteSome};
ghost use Rattle.cmd_listing.specs.Listing.{listing, word_line};

use arrayvec::{ArrayString, ArrayVec};
use sbx_put::put_all;
use std::io::{self, Write};
use v8_formats::decode;
use v8_forms::{print_instr, push_hexadecimal};
use v8_map::CODE_START;

/// Room for the longest line.
type Line = ArrayVec<u8, 96>;

fn push(line: &mut Line, text: &[u8])
    requires { array_vec_len line.old + length text.now ≤ 96 }
    ensures items { line.new.items ≡ line.old.items ++ text.now }
    ensures len { array_vec_len line.new ≡ array_vec_len line.old + length text.now }
{
    match line.try_extend_from_slice(text) {
        Ok(()) => {}
        Err(_full) => unreachable!(),
    }
}

/// The line of a word of code: its address, the word and its text.
#[tactic(auto, unfolding(crate::specs::Listing::word_line))]
fn line_of(address: u32, word: u32) -> Line
    ensures { result.items ≡ word_line address word }
{
    let mut head = ArrayString::<64>::new();
    push_hexadecimal(&mut head, address);
    head.push(' ');
    push_hexadecimal(&mut head, word);
    head.push(' ');
    let mut text = ArrayString::<64>::new();
    print_instr(&decode(word), &mut text);
    let mut line = Line::new();
    push(&mut line, head.as_str().as_bytes());
    push(&mut line, text.as_str().as_bytes());
    push(&mut line, b"\n");
    line
}

/// Writes the line of a word of code.
fn put_line<O: Write>(address: u32, word: u32, out: &mut O) -> io::Result<()>
    ensures whole { OnOk result (Appends (O.contents out.old) (O.contents out.new) (word_line address word)) }
    ensures part { OnErr result (WroteSome (O.contents out.old) (O.contents out.new) (word_line address word)) }
{
    let line = line_of(address, word);
    put_all(out, line.as_slice())
}

/// Writes the line of each word of code, through to the end: its address, the word and the text of the instruction that
/// it means. Where the writer fails it has the first bytes of the listing.
pub fn put_listing<O: Write>(words: &[u32], out: &mut O) -> io::Result<()>
    requires { length words.now ≤ 65536 }
    ensures whole { OnOk result (Appends (O.contents out.old) (O.contents out.new) (listing CODE_START words.now)) }
    ensures part { OnErr result (WroteSome (O.contents out.old) (O.contents out.new) (listing CODE_START words.now)) }
{
    let mut address = CODE_START;
    for word in words {
        put_line(address, *word, out)?;
        address += 4;
    }
    out.flush()
}

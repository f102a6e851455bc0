//! Members of objects, the brackets round them, and the line of a whole one.
ghost use Rattle.std.specs.Prelude.{◌≡◌, [], ◌∷◌, IfOk, OnOk};
ghost use Rattle.json.specs.Json.{boolean, string};
ghost use Rattle.json.specs.Token.{begin_array, begin_object, end_array, end_object};
ghost use Rattle.inspect_json.specs.Objects.{Adds, IsEmpty, IsLineOf, key_tokens, member_tokens, signed, unsigned};

use json::Writer;
use std::alloc::{AllocError, Global};

#[tactic(auto, using(crate::proofs::Adding::added))]
pub(crate) fn open_object(out: &mut Writer) -> Result<(), AllocError>
    ensures { OnOk result (Adds out.old out.new (begin_object ∷ [])) }
{
    out.begin_object()
}

#[tactic(auto, using(crate::proofs::Adding::added))]
pub(crate) fn close_object(out: &mut Writer) -> Result<(), AllocError>
    ensures { OnOk result (Adds out.old out.new (end_object ∷ [])) }
{
    out.end_object()
}

#[tactic(auto, using(crate::proofs::Adding::added))]
pub(crate) fn open_array(out: &mut Writer) -> Result<(), AllocError>
    ensures { OnOk result (Adds out.old out.new (begin_array ∷ [])) }
{
    out.begin_array()
}

#[tactic(auto, using(crate::proofs::Adding::added))]
pub(crate) fn close_array(out: &mut Writer) -> Result<(), AllocError>
    ensures { OnOk result (Adds out.old out.new (end_array ∷ [])) }
{
    out.end_array()
}

/// The name of a member, whose value follows.
#[tactic(auto, using(crate::proofs::Adding::added))]
pub(crate) fn put_key(out: &mut Writer, key: &str) -> Result<(), AllocError>
    ensures { OnOk result (Adds out.old out.new (key_tokens key.now)) }
{
    out.key(key)
}

pub(crate) fn put_number(out: &mut Writer, key: &str, number: u64) -> Result<(), AllocError>
    ensures { OnOk result (Adds out.old out.new (member_tokens key.now (unsigned number))) }
{
    out.key(key)?;
    out.u64(number)
}

pub(crate) fn put_signed(out: &mut Writer, key: &str, number: i64) -> Result<(), AllocError>
    ensures { OnOk result (Adds out.old out.new (member_tokens key.now (signed number))) }
{
    out.key(key)?;
    out.i64(number)
}

pub(crate) fn put_word(out: &mut Writer, key: &str, word: u32) -> Result<(), AllocError>
    ensures { OnOk result (Adds out.old out.new (member_tokens key.now (unsigned word))) }
{
    put_number(out, key, u64::from(word))
}

pub(crate) fn put_half(out: &mut Writer, key: &str, half: u16) -> Result<(), AllocError>
    ensures { OnOk result (Adds out.old out.new (member_tokens key.now (unsigned half))) }
{
    put_number(out, key, u64::from(half))
}

pub(crate) fn put_byte(out: &mut Writer, key: &str, byte: u8) -> Result<(), AllocError>
    ensures { OnOk result (Adds out.old out.new (member_tokens key.now (unsigned byte))) }
{
    put_number(out, key, u64::from(byte))
}

pub(crate) fn put_signed_word(out: &mut Writer, key: &str, word: i32) -> Result<(), AllocError>
    ensures { OnOk result (Adds out.old out.new (member_tokens key.now (signed word))) }
{
    put_signed(out, key, i64::from(word))
}

pub(crate) fn put_text(out: &mut Writer, key: &str, text: &str) -> Result<(), AllocError>
    ensures { OnOk result (Adds out.old out.new (member_tokens key.now (string text.now))) }
{
    out.key(key)?;
    out.string(text)
}

pub(crate) fn put_flag(out: &mut Writer, key: &str, flag: bool) -> Result<(), AllocError>
    ensures { OnOk result (Adds out.old out.new (member_tokens key.now (boolean flag))) }
{
    out.key(key)?;
    out.boolean(flag)
}

/// A writer of one line.
pub(crate) fn new_line(alloc: Global) -> Writer
    ensures { IsEmpty result }
{
    Writer::new(Vec::new(alloc))
}

/// The line of an object that was written whole.
pub(crate) fn line_of(out: Writer) -> Result<Vec<u8>, AllocError>
    ensures { IfOk result (λ line. IsLineOf out line.items) }
{
    let mut line = out.into_inner();
    line.push(b'\n')?;
    Ok(line)
}

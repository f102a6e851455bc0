//! The call of sources.
ghost use Rattle.std.specs.Prelude.{◌≡◌, ◌≢◌};
ghost use Rattle.geyserpan.specs.Sources.{HasFault, HasImage, NeedsMore, TellsCause, cause_number};

use crate::room::put_front;
use crate::statuses::{HANDLE, MEMORY, OK, ROOM, SOURCE};
use crate::terms::Why;
use sbx_asm::{AsmFault, Cause, assemble};
use sbx_image::write;
use sbx_text::TextFault;
use std::alloc::Global;
use v8_syntax::SyntaxFault;

/// The number of a cause: 1 to 4 of X1 to X4, 5 to 9 of S1 to S5, 10 to 13 of A1 to A4; 0 for want of memory.
fn cause_number(cause: Cause) -> u32
    ensures { result ≡ cause_number cause }
{
    match cause {
        Cause::Text(TextFault::NotAscii) => 1,
        Cause::Text(TextFault::BadCharacter) => 2,
        Cause::Text(TextFault::NumberTooLarge) => 3,
        Cause::Text(TextFault::LineTooLong) => 4,
        Cause::Syntax(SyntaxFault::UnknownMnemonic) => 5,
        Cause::Syntax(SyntaxFault::Shape) => 6,
        Cause::Syntax(SyntaxFault::Immediate) => 7,
        Cause::Syntax(SyntaxFault::UnknownSymbol) => 8,
        Cause::Syntax(SyntaxFault::Target) => 9,
        Cause::DuplicateLabel => 10,
        Cause::Directive => 11,
        Cause::Limit => 12,
        Cause::Annotation => 13,
        Cause::Text(TextFault::Memory(_)) | Cause::Memory(_) => 0,
    }
}

/// The status of a source's fault. What tells why is written where it is SOURCE.
fn tell_fault(fault: AsmFault, why: &mut Why) -> u32
    ensures told { result ≡ SOURCE → TellsCause fault why.new }
    ensures faults { result ≢ OK }
    ensures roomy { result ≢ ROOM }
    ensures holds { result ≢ HANDLE }
    ensures stays { result ≢ SOURCE → why.new ≡ why.old }
{
    let number = cause_number(fault.cause);
    if number == 0 {
        return MEMORY;
    }
    *why = Why {
        number,
        function: 0,
        address: fault.line.min(u32::MAX as usize) as u32,
    };
    SOURCE
}

/// Writes the image that a source means to the front of the room.
#[unsafe(no_mangle)]
pub extern "C" fn geyserpan_assemble(
    alloc: Global,
    source: &[u8],
    room: &mut [u8],
    needed: &mut u64,
    why: &mut Why,
) -> u32
    ensures assembled { result ≡ OK → HasImage source.now room.old room.new needed.new }
    ensures stays { result ≢ OK → room.new ≡ room.old }
    ensures small { result ≡ ROOM → NeedsMore source.now room.old needed.new }
    ensures fault { result ≡ SOURCE → HasFault source.now why.new }
    ensures unneeded { result ≢ OK → result ≢ ROOM → needed.new ≡ needed.old }
    ensures unsaid { result ≢ SOURCE → why.new ≡ why.old }
    ensures holds { result ≢ HANDLE }
{
    match assemble(alloc, source) {
        Ok(image) => match write(&image, alloc) {
            Ok(bytes) => {
                *needed = bytes.len() as u64;
                if put_front(room, bytes.as_slice()) {
                    OK
                } else {
                    ROOM
                }
            }
            Err(_refused) => MEMORY,
        },
        Err(fault) => tell_fault(fault, why),
    }
}

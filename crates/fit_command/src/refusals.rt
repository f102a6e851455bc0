//! What is told where a source in the project's own language gets no annotations.
use crate::files::{NO_MEMORY, REFUSED, refused};
use fit_kept::AnnotationRefusal;
use sbx_asm::{AsmFault, Cause};
use std::slice::from_ref;
use v8_syntax::SyntaxFault;

/// What a fault of the assembler's is, in words.
fn meaning(cause: Cause) -> &'static str {
    match cause {
        Cause::Text(_) => "a character, a number or a length that no line may have",
        Cause::Syntax(SyntaxFault::UnknownMnemonic) => "no such instruction or directive",
        Cause::Syntax(SyntaxFault::Shape) => "operands that the instruction can't have",
        Cause::Syntax(SyntaxFault::Immediate) => "a number that doesn't fit the instruction",
        Cause::Syntax(SyntaxFault::UnknownSymbol) => "a name that stands nowhere",
        Cause::Syntax(SyntaxFault::Target) => "a target that can't be reached",
        Cause::DuplicateLabel => "a name that stands at two places",
        Cause::Directive =>
            "a directive's operands, a line that has no place here, or no `.function`",
        Cause::Limit => "more than an image may have",
        Cause::Annotation => "an annotation out of its place",
        Cause::Memory(_) => "out of memory",
    }
}

/// Tells why a source without annotations to give is refused, a fault of its own or of what would be made of it, and
/// gives the exit status.
pub fn tell_annotation_refusal(rt: &HostRuntime, path: &str, refusal: &AnnotationRefusal) -> u8 {
    let (made, fault) = match refusal {
        AnnotationRefusal::Source(fault) => ("", fault),
        AnnotationRefusal::Made(fault) => (" with its annotations", fault),
        AnnotationRefusal::Program(fault) => {
            return match String::from_str(rt.alloc(), path) {
                Ok(file) => refused(rt, fault, from_ref(&file)),
                Err(_error) => NO_MEMORY,
            };
        }
    };
    let AsmFault { line, cause } = *fault;
    if matches!(cause, Cause::Memory(_)) {
        return NO_MEMORY;
    }
    let meaning = meaning(cause);
    let _ = eprintln!(rt; "{path}{made}:{line}: refused: {cause}, {meaning}");
    REFUSED
}

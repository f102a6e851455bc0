//! What the assembler's meaning and the verdict make together, and what a run on a known input is. Each is the contract
//! of a function that does nothing.
ghost use Rattle.cmd_command.specs.Laws.{KnownInputsAreAnswered, SourcesAreSafe};

/// The image that a source means is read again from its spelling, which `asm` writes; and where it breaks no rule it is
/// safe on the flat machine: on each input every run of it exits within its budget, with one output and one status.
pub fn sources_are_safe()
    ensures { SourcesAreSafe }
{}

/// Where all bytes of an input are known, a run that ended has put out what the image does on the whole input, as
/// `run_accepted` has it, however many of them it has read.
pub fn known_inputs_are_answered()
    ensures { KnownInputsAreAnswered }
{}

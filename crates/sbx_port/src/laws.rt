//! What holds of every turn of a board, whatever its input goes on with.
ghost use Rattle.sbx_port.specs.Following.{NothingComes, TurnFollows};

/// A turn that reads no byte past those that are known is the same turn on every input that begins with them; and a
/// board that has no input left gets none.
pub fn turns_follow()
    ensures follow { TurnFollows }
    ensures nothing_comes { NothingComes }
{}

// Sizes and registers of what moves between memory and registers.
ghost use Rattle.std.specs.Prelude.{◌≡◌};
ghost use Rattle.v8_meaning.specs.Transfers.{odd_of, splits_pair};

use v8_formats::{Reg, Size};

/// The odd register of a register's pair.
pub fn odd_of(rd: Reg) -> Reg
    ensures { result ≡ odd_of rd }
{
    Reg::new(rd.number() / 2 * 2 + 1).unwrap()
}

/// Whether eight bytes move and the register's number is odd, as it may not be (appendix B, "Load Integer
/// Instructions").
pub fn splits_pair(size: Size, rd: Reg) -> bool
    ensures { result ≡ splits_pair size rd }
{
    match size {
        Size::Double => rd.number() % 2 != 0,
        Size::Byte | Size::Half | Size::Word => false,
    }
}

// Address spaces of loads and stores (appendix B, "Load Integer Instructions").
ghost use Rattle.std.specs.Prelude.{◌≡◌};
ghost use Rattle.v8_meaning.specs.Spaces.{is_code_space, is_missing, is_normal, is_unknown, is_user_space};

use crate::operation::Space;

/// Whether a load or a store uses the data space of the current mode. Others are for supervisor code alone.
pub fn is_normal(space: Space) -> bool
    ensures { result ≡ is_normal space }
{
    matches!(space, Space::Normal)
}

/// Whether a form names no space, as it has to.
pub fn is_missing(space: Space) -> bool
    ensures { result ≡ is_missing space }
{
    matches!(space, Space::Missing)
}

/// Whether nothing answers the space's identifier: the machine has the spaces 8 to 11.
pub fn is_unknown(space: Space) -> bool
    ensures { result ≡ is_unknown space }
{
    match space {
        Space::Alternate(asi) => !(8 <= asi && asi <= 11),
        Space::Normal | Space::Missing => false,
    }
}

/// Whether an identifier is that of a user's space: 8 and 9 are user and supervisor instruction, 10 and 11 user and
/// supervisor data.
pub fn is_user_space(asi: u8) -> bool
    ensures { result ≡ is_user_space asi }
{
    asi % 2 == 0
}

/// Whether an identifier is that of a space of instructions, 8 or 9.
pub fn is_code_space(asi: u8) -> bool
    ensures { result ≡ is_code_space asi }
{
    asi == 8 || asi == 9
}

//! What condition codes were set from.
ghost use Rattle.std.specs.Prelude.{◌≡◌};
ghost use Rattle.sbx_domain.specs.Known.{is_at, names, without_location};

/// An operand of a comparison.
#[derive(Clone, Copy)]
pub enum Related {
    Location(u16),
    /// A known word: that of %g0, or an immediate.
    Word(u32),
}

/// What the codes say of words.
#[derive(Clone, Copy)]
pub enum Relation {
    /// They are those of the first less the second.
    Compared(Related, Related),
    /// Z and N are those of this location's word.
    Signs(u16),
}

fn is_at(location: u16, related: Related) -> bool
    ensures { result ≡ is_at location related }
{
    match related {
        Related::Location(other) => other == location,
        Related::Word(_) => false,
    }
}

fn names(location: u16, relation: Relation) -> bool
    ensures { result ≡ names location relation }
{
    match relation {
        Relation::Compared(first, second) => is_at(location, first) || is_at(location, second),
        Relation::Signs(other) => other == location,
    }
}

/// The relation, unless it names a location.
pub(crate) fn without_location(location: u16, relation: Option<Relation>) -> Option<Relation>
    ensures { result ≡ without_location location relation }
{
    match relation {
        Some(relation) if !names(location, relation) => Some(relation),
        _ => None,
    }
}

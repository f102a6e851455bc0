//! What is known of a location, and sums over locations, as text.
ghost use Rattle.std.specs.Prelude.{◌≡◌, Some};
ghost use Rattle.inspect_refusal.specs.Values.{known_text, multiple_text};

use inspect_image::Location;
use sbx_form::FormTerm;
use sbx_image::Range;
use std::alloc::AllocError;
use std::fmt::{self, Display, Formatter, Write};

fn multiple_text(alignment: u8) -> &'static str
    ensures { result.now ≡ multiple_text alignment }
{
    match alignment {
        0 => "",
        1 => ", a multiple of 2",
        2 => ", a multiple of 4",
        _ => ", a multiple of 8",
    }
}

/// What is known of a location: the words of its range, read as signed, as `1 to 1000, a multiple of 4`, or that it is
/// undefined.
#[derive(Clone, Copy)]
pub(crate) struct Known(pub(crate) Option<Range>);

impl Display for Known {
    ghost output = { λ k. Some (known_text k.0) };

    fn fmt<W: Write>(&self, f: &mut Formatter<W>) -> fmt::Result {
        match self.0 {
            Some(Range { lo, hi, alignment }) => {
                let multiple = multiple_text(alignment);
                write!(f, "{lo} to {hi}{multiple}")
            }
            None => f.write_str("anything: it is undefined"),
        }
    }
}

/// Pushes a constant and multiples of locations behind a heading: `4 + 16 * %l0`.
pub(crate) fn push_sum(
    out: &mut String,
    heading: &str,
    constant: i64,
    terms: &[FormTerm],
) -> Result<(), AllocError> {
    write!(out, "{heading}{constant}")?;
    for term in terms {
        let (coefficient, location) = (term.coefficient, Location(term.location));
        write!(out, " + {coefficient} * {location}")?;
    }
    Ok(())
}

//! What mends a location that isn't shown to hold what a declaration says.
ghost use Rattle.std.specs.Prelude.{◌≡◌, IfSome, Some};
ghost use Rattle.sbx_range.specs.Rows.{ones_above};
ghost use Rattle.sbx_domain.specs.Known.{form_at, known};
ghost use Rattle.inspect_refusal.specs.Mends.{IsLack, more_than_began};

use sbx_domain::State;
use sbx_image::Range;
use std::alloc::AllocError;

/// What a range lacks of another one: its ends may lie outside, and its numbers may be multiples of less.
#[derive(Clone, Copy)]
pub(crate) struct Lack {
    pub(crate) below: bool,
    pub(crate) above: bool,
    pub(crate) uneven: bool,
}

fn lack_of(inner: Range, outer: Range) -> Lack
    ensures { IsLack inner outer result }
{
    Lack {
        below: inner.lo < outer.lo,
        above: outer.hi < inner.hi,
        uneven: !(inner.alignment >= outer.alignment),
    }
}

/// What was added to a location since its block began; none where it holds something else.
pub(crate) fn added_to(location: u16, state: &State) -> Option<i64>
    ensures { IfSome result (λ added. form_at (known state.now) location ≡ Some (more_than_began location added)) }
{
    let form = state.form(location)?;
    let terms = form.terms::<8>();
    match terms.as_slice() {
        [term] if term.location == location && term.coefficient == 1 => Some(form.constant()),
        _ => None,
    }
}

/// Pushes by how much a number grows or falls from where its block begins, if it does.
fn push_added(out: &mut String, added: i64) -> Result<(), AllocError> {
    let by = added.unsigned_abs();
    if added > 0 {
        write!(out, "it grows by {by} in the block: ")
    } else if added < 0 {
        write!(out, "it falls by {by} in the block: ")
    } else {
        Ok(())
    }
}

/// Pushes the numbers from one to another one, of which only an end that is lacking is told.
fn push_ends(out: &mut String, lack: Lack, low: i64, high: i64) -> Result<(), AllocError> {
    match (lack.below, lack.above) {
        (true, true) => write!(out, "{low} to {high}"),
        (true, false) => write!(out, "at least {low}"),
        _ => write!(out, "at most {high}"),
    }
}

/// Pushes what mends a number that leaves its range, to which so much was added since its block began: on a way that
/// leads back a comparison.
fn push_counted(
    out: &mut String,
    lack: Lack,
    added: i64,
    declared: Range,
    is_back: bool,
) -> Result<(), AllocError> {
    let (low, high) = (i64::from(declared.lo), i64::from(declared.hi));
    out.push_str("    ")?;
    push_added(out, added)?;
    if is_back {
        out.push_str("compare it by `cmp`, and go back only where it is ")?;
        push_ends(out, lack, low, high)?;
        out.push_str("\n")
    } else {
        out.push_str("compare it by `cmp`, begin the block with ")?;
        push_ends(
            out,
            lack,
            low.saturating_sub(added),
            high.saturating_sub(added),
        )?;
        out.push_str(", or declare more\n")
    }
}

/// The least number of the form 2^k - 1 that isn't below this one.
fn ones_above(number: u32) -> u64
    ensures { result ≡ ones_above number }
{
    (1u64 << (32 - number.leading_zeros())) - 1
}

/// What to mask a number with so that it lies in a range, or in little more: where that begins at 0 or below, and
/// where the mask fits an instruction.
fn mask_of(declared: Range) -> Option<u64> {
    if declared.lo > 0 || declared.hi < 1 || declared.hi > 4_095 {
        return None;
    }
    Some(ones_above(declared.hi as u32))
}

/// Pushes what mends a number that leaves its range.
fn push_outside(out: &mut String, known: Range, declared: Range) -> Result<(), AllocError> {
    if known.lo == known.hi {
        return out.push_str("    declare more, or write a number within\n");
    }
    out.push_str("    compare it by `cmp`, or declare more")?;
    match mask_of(declared) {
        Some(mask) => writeln!(out, ": `and` with {mask} leaves 0 to {mask} of any number"),
        None => out.push_str("\n"),
    }
}

/// What mends a location that may hold anything.
const UNWRITTEN: &str =
    "    write it on this way, or list a cell for it in each block between it and the word that wrote it;\n    \
     a call keeps locals, ins and slots only\n";

/// Pushes what mends a location that isn't shown to hold what is declared of it. `is_back` says whether the way leads
/// to its own block or an earlier one.
pub(crate) fn push_mend(
    out: &mut String,
    location: u16,
    declared: Range,
    state: &State,
    is_back: bool,
) -> Result<(), AllocError> {
    let Some(known) = state.range(location) else {
        return out.push_str(UNWRITTEN);
    };
    let lack = lack_of(known, declared);
    if lack.below || lack.above {
        return match added_to(location, state) {
            Some(added) => push_counted(out, lack, added, declared, is_back),
            _ => push_outside(out, known, declared),
        };
    }
    if lack.uneven {
        let unit = 1u32 << declared.alignment.min(3);
        return writeln!(
            out,
            "    it isn't shown to be a multiple of {unit}: shift or mask it"
        );
    }
    Ok(())
}

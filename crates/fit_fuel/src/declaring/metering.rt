//! Turns that the places of a meter take.
use crate::meter::{Meter, set_weight};
use crate::ways::{FunctionFuel, METER, constant_at};
use fit_code::{Function, SourceLine};

/// Lets each place take so much that the way on is paid for, as much as the dearest way to the next place weighs, where
/// these are the fuel's ways. Says whether one takes more than before.
///
/// # Errors
/// The line of one that would have to take more than the meter ever has.
pub fn set_weights(
    function: &mut Function,
    meter: &Meter,
    fuel: &mut FunctionFuel,
) -> Result<bool, SourceLine> {
    let mut takes_more = false;
    let constants = fuel.constants.as_slice();
    let blocks = function.blocks.as_mut_slice();
    let places = fuel.places.as_mut_slice();
    for way in fuel.ways.as_slice() {
        let from = way.from;
        if way.location == METER
            && from < blocks.len()
            && from < places.len()
            && let Some(here) = constant_at(constants, from)
            && let Some(to) = way.to
            && let Some(there) = constant_at(constants, to)
        {
            let short = way.cost.saturating_add(there).saturating_sub(here);
            if short > 0 {
                let unit = u64::from(meter.unit).max(1);
                let more = (short.unsigned_abs().saturating_sub(1) / unit).saturating_add(1);
                let weight = u64::from(places[from]).saturating_add(more);
                let weight = u32::try_from(weight).unwrap_or(u32::MAX);
                let block = &mut blocks[from];
                if weight > meter.count {
                    return Err(block.line);
                }
                set_weight(meter, block, weight, &mut fuel.memory);
                places[from] = weight;
                takes_more = true;
            }
        }
    }
    Ok(takes_more)
}

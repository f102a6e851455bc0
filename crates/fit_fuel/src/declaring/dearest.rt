//! The loop that takes the most of a function's fuel.
use crate::declaring::terms::has_place;
use crate::meter::Meter;
use crate::ways::{FunctionFuel, constant_at};
use fit_code::{Function, SourceLine};
use fit_graph::Loop;

/// What a loop's counter has to pay for: what is asked for on the dearest way into it, without what the ways out of it
/// ask for.
fn counted(fuel: &FunctionFuel, within: &Loop) -> i64 {
    let mut inside: i64 = 0;
    let mut behind: i64 = 0;
    for way in fuel.ways.as_slice() {
        if let Some(to) = way.to {
            let asked = constant_at(fuel.constants.as_slice(), to).unwrap_or(0);
            if (to == within.head) & !within.has(way.from) {
                inside = inside.max(way.cost.saturating_add(asked));
            } else if within.has(way.from) & !within.has(to) {
                behind = behind.max(asked);
            }
        }
    }
    inside.saturating_sub(behind)
}

/// The line of that of a function's loops that may take the most turns, the first and outermost of those: that from
/// which it goes back to its head. None in a function without loops. A loop in which the meter has a place may take all
/// that the meter begins with.
pub fn dearest_loop(
    function: &Function,
    loops: &[Loop],
    fuel: &FunctionFuel,
    meter: Option<&Meter>,
) -> Option<SourceLine> {
    let mut found = None;
    let mut most = i64::MIN;
    for within in loops {
        let turns = match meter {
            Some(meter) if has_place(within, fuel.places.as_slice()) => {
                i64::from(meter.count).saturating_mul(i64::from(meter.unit))
            }
            _ => counted(fuel, within),
        };
        if turns > most
            && let Some(latch) = within.latches.first()
            && *latch < function.blocks.len()
        {
            found = Some(function.blocks[*latch].line);
            most = turns;
        }
    }
    found
}

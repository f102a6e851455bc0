//! The least constants that pay for all ways: the dearest way on from each block.
use crate::ways::fuel::WayOut;

/// The constant of a block; none where no way on is known.
pub fn constant_at(constants: &[Option<i64>], block: usize) -> Option<i64> {
    if block < constants.len() {
        constants[block]
    } else {
        None
    }
}

/// Raises constants to what the ways ask for that this location pays for, once; says whether one rose. Nothing is asked
/// for at the head of a loop, where a round ends.
fn raise(constants: &mut [Option<i64>], ways: &[WayOut], head: usize, location: u16) -> bool {
    let mut has_risen = false;
    for place in (0..ways.len()).rev() {
        let way = &ways[place];
        if (way.location == location) & (way.from < constants.len()) {
            let behind = match way.to {
                Some(to) if to != head => constant_at(constants, to),
                _ => Some(0),
            };
            if let Some(behind) = behind {
                let wanted = Some(way.cost.saturating_add(behind));
                // what isn't known is less than all that is
                if wanted > constants[way.from] {
                    constants[way.from] = wanted;
                    has_risen = true;
                }
            }
        }
    }
    has_risen
}

/// Finds the least constants that pay for the ways of a location, in the loop of a head; says whether there are some,
/// and no round of ways gains.
pub fn settle(constants: &mut [Option<i64>], ways: &[WayOut], head: usize, location: u16) -> bool {
    for _ in 0..=constants.len() {
        if !raise(constants, ways, head, location) {
            return true;
        }
    }
    false
}

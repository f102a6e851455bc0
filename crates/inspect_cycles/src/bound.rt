//! The bound.
ghost use Rattle.std.specs.Prelude.{◌≡◌, ◌≤◌, ◌*◌, ◌/◌};
ghost use Rattle.sbx_flat.specs.Runs.{budget};
ghost use Rattle.inspect_cycles.specs.Cycles.{AreMost, AreMostBeside, without_services};
ghost use Rattle.inspect_cycles.specs.Pieces.{IsDearest};

use crate::pieces::{Piece, dearest_piece};
use crate::table::CycleTable;
use sbx_verify::{Accepted, budget};

/// What bounds an image's runs.
#[derive(Clone, Copy)]
pub struct CycleBound {
    /// The budget, in turns.
    pub budget: u64,
    /// The piece of a block that takes the most cycles by the turn.
    pub dearest: Piece,
    /// The most cycles that a run takes.
    pub most: u128,
}

/// What so many turns take at most, where this is the dearest piece.
fn cycles_within(dearest: Piece, budget: u64) -> u128
    requires { 1 ≤ dearest.turns }
    ensures { result ≡ dearest.cycles * budget / dearest.turns }
{
    u128::from(dearest.cycles) * u128::from(budget) / u128::from(dearest.turns)
}

/// How many cycles a run of an accepted image takes at most, by a table of a processor's worst cases: its budget, times
/// what the dearest piece of its blocks takes by the turn.
pub fn most_cycles(table: &CycleTable, accepted: &Accepted) -> CycleBound
    ensures most { AreMost table.now accepted.now result.most }
    ensures budget { result.budget ≡ budget accepted.now }
    ensures dearest { IsDearest table.now accepted.now result.dearest }
    ensures ratio { result.most ≡ result.dearest.cycles * result.budget / result.dearest.turns }
{
    let image = accepted.image();
    image.keeps_its_format();
    let dearest = dearest_piece(table, image);
    let budget = budget(image);
    CycleBound {
        budget,
        dearest,
        most: cycles_within(dearest, budget),
    }
}

/// The same beside the services: no run takes more than this bound, and what each service that it asks for takes behind
/// its trap.
pub fn most_beside_services(table: &CycleTable, accepted: &Accepted) -> CycleBound
    ensures most { AreMostBeside table.now accepted.now result.most }
    ensures budget { result.budget ≡ budget accepted.now }
    ensures dearest { IsDearest (without_services table.now) accepted.now result.dearest }
    ensures ratio { result.most ≡ result.dearest.cycles * result.budget / result.dearest.turns }
{
    most_cycles(&table.without_services(), accepted)
}

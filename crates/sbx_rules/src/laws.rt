//! Laws of the rules. Each is the contract of a function that does nothing.
ghost use Rattle.sbx_rules.specs.Examples.{RegionsAreReachedAlone, VerdictsAreThese};
ghost use Rattle.sbx_rules.specs.Verdicts.{AskingInOrderTellsTheSame};

/// An image that breaks no rule of those that are asked in order breaks none, and the refusal is the same.
pub fn asking_in_order_tells_the_same()
    ensures { AskingInOrderTellsTheSame }
{}

/// What is told of a loop, of a call, and of images that break one rule each.
pub fn verdicts_are_these()
    ensures { VerdictsAreThese }
{}

/// Which addresses a load and a store may have, in data of two regions that abut, one of which is only read.
#[tactic(auto, using(crate::proofs::Regions::regions_are_reached_alone))]
pub fn regions_are_reached_alone()
    ensures { RegionsAreReachedAlone }
{}

//! What four sources mean, by the definitions. The law is the contract of a function that does nothing.
ghost use Rattle.sbx_source_tests.specs.Examples.{KnownSourcesHaveTheirMeanings};

/// What an empty source and three short programs mean, one of them with regions and one with a depth, worked out from
/// the definitions.
#[tactic(auto, using(crate::proofs::Worked::known_meanings))]
pub fn known_sources_have_their_meanings()
    ensures { KnownSourcesHaveTheirMeanings }
{}

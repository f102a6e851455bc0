//! What holds of the faults that are told. Each law is the contract of a function that does nothing.
ghost use Rattle.inspect_check.specs.Laws.{FoundFaultsAreFaults};

/// What is told of a line by itself is one of the faults of the source's lines, of which `assemble` tells the least.
pub fn found_faults_are_faults()
    ensures { FoundFaultsAreFaults }
{}

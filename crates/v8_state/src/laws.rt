// Laws about the definitions.
ghost use Rattle.v8_state.specs.Laws.{FirstIsLeast};

/// Of all traps that an instruction meets before memory, the one that is told has the least priority number.
pub fn first_trap_is_least()
    ensures { FirstIsLeast }
{}

//! What holds of every two runs, whatever the board.
ghost use Rattle.v8_board.specs.Laws.{AsksOnceATurn, CutRunsJoin, RunsAgree, RunsJoin, StepRuns, TurnsContained};
ghost use Rattle.v8_board.specs.Laws.{TurnsJoin};

/// Calls that follow one another are one run of the board: turns and runs join, also where the port cut the first run
/// short, and a step is a run of at most one turn. A run's end is determined by where it begins and by its limit.
pub fn runs_join()
    ensures turns { TurnsJoin }
    ensures runs { RunsJoin }
    ensures cut { CutRunsJoin }
    ensures agree { RunsAgree }
    ensures step { StepRuns }
{}

/// Whatever image was loaded, each turn from there on keeps code, trap table, handlers and page tables, R and M aside;
/// user code reaches its own pages alone; and the device acts by the vectors alone: by a service, or by the stop at
/// another trap.
pub fn loading_contains()
    ensures { TurnsContained }
{}

/// So many turns call the port at most as often.
pub fn turns_ask_once()
    ensures { AsksOnceATurn }
{}

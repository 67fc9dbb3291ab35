//! Theorems on support and on whole runs of calls: the contract of each function states one.
ghost use Rattle.runs.specs.Supports.{SupportLaws};
ghost use Rattle.runs.specs.Whole.{EveryRun};

/// When a start is supported, and what keeps it so.
pub fn support_laws()
    ensures { SupportLaws }
{}

/// What holds after every history of calls, and of a prune after it, for every list of tickets.
pub fn whole_runs()
    ensures { EveryRun }
{}

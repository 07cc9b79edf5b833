// Scripts without faults are answered plainly, where their lines settle.
ghost use Rattle.ec_complete.specs.Begins.{RunsSettle};
ghost use Rattle.ec_complete.specs.SettledRuns.{RunsThatSettleArePlain};

/// A script without faults whose lines settle gives status 0, and each of its calls is answered as one plain volume answers it.
pub fn runs_that_settle_are_plain()
    ensures { RunsThatSettleArePlain }
{}

/// Lines whose first steps lead to phases from which they can settle do settle, one behind the other.
pub fn runs_settle()
    ensures { RunsSettle }
{}

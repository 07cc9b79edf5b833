//! The history of a transcript in printed order. The function has an empty body, and its contract is a law.
ghost use Rattle.std.specs.Prelude.{◌≡◌, ◌++◌};
ghost use Rattle.ec_history.specs.Placing.{place};
ghost use Rattle.ec_history.specs.OfLaws.OfPrinted.Example.{last, late_entries, lines, loss};
ghost use Rattle.ec_history.specs.OfLaws.OfPrinted.Printed.{printed};
ghost use Rattle.ec_history.specs.OfLaws.OfPrinted.Timely.{TimelyAreLegal};

/// Where no answer but one that needed nothing stands behind the end of its session, printed order is legal.
pub fn printed_order_is_legal()
    ensures { TimelyAreLegal }
{}

/// Printed order isn't the placing's.
pub fn printed_order_differs()
    ensures placed { place lines ≡ late_entries ++ (loss ++ last) }
    ensures printed { printed lines ≡ loss ++ (late_entries ++ last) }
{}

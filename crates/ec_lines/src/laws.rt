// Laws on the lines of a transcript: each function has an empty body, and its contract is a law.
ghost use Rattle.std.specs.Prelude.{ℕ, List, []};
ghost use Rattle.ec_history.specs.Placing.{ArePlaceable};
ghost use Rattle.ec_history.specs.declared.rule.Rule.{Rule};
ghost use Rattle.ec_history.specs.declared.shown.Shown.{Shown};
ghost use Rattle.ec_lines.specs.Faults.{IsFirstLine};

/// A transcript of which a line breaks a rule of placing isn't placeable.
pub fn lines_at_fault_have_no_history()
    ensures { (ss : List Shown) (p : ℕ) (r : Rule) → IsFirstLine ss p r → ¬ (ArePlaceable [] ss) }
{}

// Each rule of a history can break, by examples.
ghost use Rattle.std.specs.Prelude.{ℕ};
ghost use Rattle.ec_history.specs.Legal.{IsLegal, from_formatted};
ghost use Rattle.ec_history.specs.declared.rule.Rule.TheVariants as rule;
ghost use Rattle.ec_judge.specs.Faults.{IsFirstEntry};
ghost use Rattle.ec_judge.specs.Example.{wrong_number, silent_call, false_noroom, wrong_reply, lost_before_issued, lost_synced, lost_seen, lost_needed, lost_written};

/// Each rule is the first that some short history breaks; a `noroom` where 16 ids more are just too
/// many breaks none.
pub fn each_rule_can_break()
    ensures number { IsFirstEntry from_formatted 32 wrong_number 1 rule.Number }
    ensures report { IsFirstEntry from_formatted 32 silent_call 3 rule.Report }
    ensures room { IsFirstEntry from_formatted 32 (false_noroom 15) 1 rule.Room }
    ensures full { IsLegal from_formatted 32 (false_noroom 16) }
    ensures reply { IsFirstEntry from_formatted 32 wrong_reply 2 rule.Reply }
    ensures named { IsFirstEntry from_formatted 32 lost_before_issued 1 rule.Named }
    ensures covered { IsFirstEntry from_formatted 32 lost_synced 3 rule.Covered }
    ensures touched { IsFirstEntry from_formatted 32 lost_seen 3 rule.Touched }
    ensures closed { IsFirstEntry from_formatted 32 lost_needed 3 rule.Closed }
    ensures fits { IsFirstEntry from_formatted 32 lost_written 3 rule.Fits }
{}

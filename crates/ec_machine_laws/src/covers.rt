// What an answered fsync or sync covers.
ghost use Rattle.std.specs.Prelude.{◌≡◌, ℕ, T, Bool, Option};
ghost use Rattle.ec_volume.specs.Volume.{after};
ghost use Rattle.ec_plain.specs.Walk.{Path, At, walk};
ghost use Rattle.ec_plain.specs.declared.call.Call.TheVariants as call;
ghost use Rattle.ec_plain.specs.declared.call.Reply.TheVariants as reply;
ghost use Rattle.ec_history.specs.History.{Base, History, updates, kept, issued, of_issue, Covers};
ghost use Rattle.ec_history.specs.declared.entry.Answer.TheVariants as answer;
ghost use Rattle.ec_history.specs.declared.entry.Entry.TheVariants as entry;
ghost use Rattle.ec_log.specs.Log.{first};
ghost use Rattle.ec_log.specs.declared.state.Asked.TheVariants.{Object, All};
ghost use Rattle.ec_log.specs.declared.state.LogState.{LogState};
ghost use Rattle.ec_machine_laws.specs.Covers.{AreIssuedBy, IsFirstAfter};
ghost use Rattle.ec_machine_laws.specs.Picks.{IsRest};

/// Where the first undurable operation on the object, if any, was issued after an fsync began, all
/// that the fsync covers is done with; so it is of a sync with all operations.
pub fn covered_operations_are_done()
    ensures fsync { (base : Base) (past : History) (c b begun begop : ℕ) (l : LogState) (done : ℕ → Bool) → IsRest (of_issue c b (issued base past)) done l → AreIssuedBy base past c b begun begop
        → (p li : ℕ) (path : Path) (op : Option ℕ) (o : ℕ) → (walk (after base.volume (updates (kept base past))) path).to ≡ At o → IsFirstAfter begop (first (Object o) l)
        → (n : ℕ) → Covers base past (p, entry.Call c b li begun (call.Fsync path) (answer.Reply reply.Ok) op) c b n → T (done n) }
    ensures sync { (base : Base) (past : History) (c b begun begop : ℕ) (l : LogState) (done : ℕ → Bool) → IsRest (of_issue c b (issued base past)) done l → AreIssuedBy base past c b begun begop
        → (p li : ℕ) (op : Option ℕ) → IsFirstAfter begop (first All l) → (n : ℕ) → Covers base past (p, entry.Call c b li begun call.Sync (answer.Reply reply.Ok) op) c b n → T (done n) }
{}

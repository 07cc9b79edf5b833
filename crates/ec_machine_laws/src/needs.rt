// What calls need, and what they touch.
ghost use Rattle.std.specs.Prelude.{◌≡◌, ◌≤◌, ◌+◌, ℕ, T, false, List, length, Option, None, Some};
ghost use Rattle.ec_base.specs.Holds.{is_free};
ghost use Rattle.ec_base.specs.declared.ids.Hold.{Hold as Mode};
ghost use Rattle.ec_volume.specs.Update.{member};
ghost use Rattle.ec_volume.specs.Volume.{Images};
ghost use Rattle.ec_volume.specs.declared.image.Kind.{Kind};
ghost use Rattle.ec_volume.specs.declared.update.Update.TheVariants.{Make};
ghost use Rattle.ec_plain.specs.BoundedCalls.{is_bounded};
ghost use Rattle.ec_plain.specs.Plain.{plain};
ghost use Rattle.ec_plain.specs.Walk.{Path, walk};
ghost use Rattle.ec_plain.specs.declared.call.Call.{Call};
ghost use Rattle.ec_cache.specs.Cache.{holds};
ghost use Rattle.ec_cache.specs.declared.state.CacheState.{CacheState};
ghost use Rattle.ec_cache.specs.OfReport.Report.{Owed};
ghost use Rattle.ec_cache.specs.OfResolve.Agreement.{Shows, IsFor};
ghost use Rattle.ec_cache.specs.OfResolve.Resolve.{evaluate};
ghost use Rattle.ec_cache.specs.declared.resolve.verdict.Verdict.TheVariants.{Need, NeedIds};
ghost use Rattle.ec_machine_laws.specs.Needs.{IsCreate, max_touched};

/// An object that a call needs is one that it touches, on each volume that the cache shows and
/// with each id that a new object may have.
pub fn needed_objects_are_touched()
    ensures { (k : CacheState) (owed : Owed) (cl : Call) (fresh : Option ℕ) (x : ℕ) (h : Mode) → evaluate k owed cl fresh ≡ Need x h → (v : Images) → Shows k fresh v → (id : ℕ) → IsFor fresh id → T (member x (plain v cl id).touched) }
{}

/// What a call needs is a token for reading or for writing that isn't held.
pub fn needs_are_not_held()
    ensures held { (k : CacheState) (owed : Owed) (cl : Call) (fresh : Option ℕ) (x : ℕ) (h : Mode) → evaluate k owed cl fresh ≡ Need x h → holds x h k ≡ false }
    ensures free { (k : CacheState) (owed : Owed) (cl : Call) (fresh : Option ℕ) (x : ℕ) (h : Mode) → evaluate k owed cl fresh ≡ Need x h → is_free h ≡ false }
{}

/// Only a call that makes an object needs an id, and only where there is none. No other call has
/// an update that makes one.
pub fn ids_are_needed_by_creates()
    ensures need { (k : CacheState) (owed : Owed) (cl : Call) (fresh : Option ℕ) (xs : List ℕ) → evaluate k owed cl fresh ≡ NeedIds xs → IsCreate cl }
    ensures none { (k : CacheState) (owed : Owed) (cl : Call) (fresh : Option ℕ) (xs : List ℕ) → evaluate k owed cl fresh ≡ NeedIds xs → fresh ≡ None }
    ensures makes { (v : Images) (cl : Call) (id dir obj : ℕ) (name : List ℕ) (kind : Kind) → (plain v cl id).update ≡ Some (Make dir name obj kind) → (obj ≡ id) × IsCreate cl }
{}

/// A walk reads at most one object more than its path has names, and a call within its bounds
/// touches at most 136 objects.
pub fn calls_touch_few_objects()
    ensures walk { (v : Images) (path : Path) → length (walk v path).read ≤ length path + 1 }
    ensures call { (v : Images) (cl : Call) (id : ℕ) → T (is_bounded cl) → length (plain v cl id).touched ≤ max_touched }
{}

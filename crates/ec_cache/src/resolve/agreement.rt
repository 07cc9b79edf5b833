// Verdicts on the volumes that a cache shows.
ghost use Rattle.std.specs.Prelude.{◌≡◌, ℕ, List, Option};
ghost use Rattle.ec_base.specs.Tables.{or_else};
ghost use Rattle.ec_base.specs.declared.ids.Hold.{Hold as Mode};
ghost use Rattle.ec_volume.specs.Volume.{Images};
ghost use Rattle.ec_plain.specs.Plain.{plain};
ghost use Rattle.ec_plain.specs.declared.call.Call.{Call};
ghost use Rattle.ec_plain.specs.declared.call.Outcome.{Outcome};
ghost use Rattle.ec_cache.specs.declared.state.CacheState.{CacheState};
ghost use Rattle.ec_cache.specs.OfReport.Report.{Owed};
ghost use Rattle.ec_cache.specs.OfResolve.Agreement.{Shows, IsFor, IsNeeded, IsOwed, IsWithoutId, IsReady};
ghost use Rattle.ec_cache.specs.OfResolve.Resolve.{evaluate};
ghost use Rattle.ec_cache.specs.declared.resolve.verdict.Verdict.TheVariants.{Need, Lost, NeedIds, Done};

/// An outcome is that of the call on each volume with the images held, whatever its other objects
/// are, and all that it needs is held.
pub fn outcomes_are_those_of_the_volume()
    ensures comes { (k : CacheState) (owed : Owed) (cl : Call) (fresh : Option ℕ) (out : Outcome) → evaluate k owed cl fresh ≡ Done out → (v : Images) → Shows k fresh v → plain v cl (or_else 0 fresh) ≡ out }
    ensures any_id { (k : CacheState) (owed : Owed) (cl : Call) (fresh : Option ℕ) (out : Outcome) → evaluate k owed cl fresh ≡ Done out → (v : Images) → Shows k fresh v → (id : ℕ) → IsFor fresh id → plain v cl id ≡ out }
    ensures ready { (k : CacheState) (owed : Owed) (cl : Call) (fresh : Option ℕ) (out : Outcome) → evaluate k owed cl fresh ≡ Done out → IsReady k owed cl fresh out }
{}

/// A token is needed on the first object that the call on the volume touches and that isn't held,
/// or, where all are, on the first that its update has to write and that isn't held for writing.
pub fn needs_are_the_first_without_a_token()
    ensures { (k : CacheState) (owed : Owed) (cl : Call) (fresh : Option ℕ) (x : ℕ) (h : Mode) → evaluate k owed cl fresh ≡ Need x h → (v : Images) → Shows k fresh v → (id : ℕ) → IsFor fresh id → IsNeeded k owed cl fresh id (plain v cl id) x h }
{}

/// What is reported is exactly what is owed on the objects that the call on the volume touches, all
/// of which are held, or on all objects for a sync.
pub fn losses_are_what_is_owed_on_the_touched()
    ensures { (k : CacheState) (owed : Owed) (cl : Call) (fresh : Option ℕ) (ops objs : List ℕ) → evaluate k owed cl fresh ≡ Lost ops objs → (v : Images) → Shows k fresh v → (id : ℕ) → IsFor fresh id → IsOwed k owed cl fresh id (plain v cl id) ops objs }
{}

/// An id is wanted where the call on the volume would make an object, and nothing else lacks; it
/// touches the objects that are told, and the new one.
pub fn ids_are_wanted_for_new_objects()
    ensures { (k : CacheState) (owed : Owed) (cl : Call) (fresh : Option ℕ) (touched : List ℕ) → evaluate k owed cl fresh ≡ NeedIds touched → (v : Images) → Shows k fresh v → (id : ℕ) → IsFor fresh id → IsWithoutId k owed fresh id (plain v cl id) touched }
{}

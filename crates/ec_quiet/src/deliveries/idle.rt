// Clerks that aren't at work.
ghost use Rattle.std.specs.Prelude.{◌≡◌, ◌==◌, ◌+◌, ℕ, false, List, [], ◌∷◌, Ok};
ghost use Rattle.ec_base.specs.declared.ids.Hold.{Hold as Mode};
ghost use Rattle.ec_volume.specs.declared.update.Update.{Update};
ghost use Rattle.ec_sessions.specs.declared.slot.Slot.{Slot};
ghost use Rattle.ec_sessions.specs.OfTokens.Tokens.{granted};
ghost use Rattle.ec_sessions.specs.declared.recall.want.Want.{Want};
ghost use Rattle.ec_durable.specs.Durable.{step, slot};
ghost use Rattle.ec_durable.specs.declared.record.Record.TheVariants.{Batch};
ghost use Rattle.ec_durable.specs.declared.state.Durable.{Durable};
ghost use Rattle.ec_protocol.specs.declared.clerk.Clerk.{Clerk};
ghost use Rattle.ec_protocol.specs.declared.server.Server.{Server};
ghost use Rattle.ec_quiet.specs.Facts.{IsIn, IsIdleBut, Same};
ghost use Rattle.ec_quiet.specs.OfDeliveries.Orderly.{IsLike, IsLikeBut};
ghost use Rattle.ec_machine_laws.specs.Records.{IsRestOf};
ghost use Rattle.ec_machine_laws.specs.Serving.{lowering};

/// A clerk in its session stays so, and an idle one idle, where the server keeps its slot and its
/// tokens; one that gave a token back is idle on all objects once the server has what it gave.
pub fn idle_clerks_stay_idle()
    ensures inside { (v w : Server) (c : ℕ) (sl : Slot) (k : Clerk) → IsLike v w c sl.session → IsIn v c sl k → IsIn w c sl k }
    ensures returned { (x : ℕ) (v w : Server) (c : ℕ) (sl : Slot) (k : Clerk) → IsLikeBut (x ∷ []) v w c sl.session → Same w sl.session k x → IsIdleBut (x ∷ []) v c sl k → IsIdleBut [] w c sl k }
    ensures idle { (xs : List ℕ) (v w : Server) (c : ℕ) (sl : Slot) (k : Clerk) → IsLike v w c sl.session → IsIdleBut xs v c sl k → IsIdleBut xs w c sl k }
{}

/// What the server does for one session leaves the others: a grant, a token given back, wants that
/// are noted or leave, and a record that changes another clerk's slot alone.
pub fn changes_leave_other_sessions()
    ensures wants { (v : Server) (ws : List Want) (c s : ℕ) → IsLike v (record v { recalls = ws }) c s }
    ensures grant { (v : Server) (ss x : ℕ) (h : Mode) (c s : ℕ) → (s == ss) ≡ false → IsLike v (record v { number = v.number + 1; tokens = granted ss x h (v.number + 1) v.tokens }) c s }
    ensures back { (v : Server) (ss x : ℕ) (to : Mode) (n c s : ℕ) → (s == ss) ≡ false → IsLike v (lowering ss x to n v) c s }
    ensures record { (v : Server) (d : Durable) (a c s : ℕ) → IsRestOf a v.durable d → (c == a) ≡ false → IsLike v (record v { durable = d }) c s }
    ensures both { (u v w : Server) (c s : ℕ) → IsLike u v c s → IsLike v w c s → IsLike u w c s }
{}

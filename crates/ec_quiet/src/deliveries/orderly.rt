// Servers whose sessions and tokens are in order.
ghost use Rattle.std.specs.Prelude.{◌≡◌, ◌+◌, ◌<◌, ℕ, T, true, false, List, ◌∷◌, Some, Ok, is_some};
ghost use Rattle.ec_base.specs.Tables.{Table, at};
ghost use Rattle.ec_base.specs.Holds.{is_free};
ghost use Rattle.ec_base.specs.declared.ids.Age.{Age};
ghost use Rattle.ec_base.specs.declared.ids.Hold.{Hold as Mode};
ghost use Rattle.ec_volume.specs.declared.update.Update.{Update};
ghost use Rattle.ec_sessions.specs.Limits.{ids_per_grant};
ghost use Rattle.ec_sessions.specs.Slots.{run};
ghost use Rattle.ec_sessions.specs.declared.slot.Slot.{Slot};
ghost use Rattle.ec_sessions.specs.OfTokens.Tokens.{token, is_clear, fits_back, granted};
ghost use Rattle.ec_sessions.specs.declared.recall.want.Want.{Want};
ghost use Rattle.ec_durable.specs.Durable.{step, slot};
ghost use Rattle.ec_durable.specs.declared.record.Record.TheVariants.{Batch, Open, Ids};
ghost use Rattle.ec_durable.specs.declared.state.Durable.{Durable};
ghost use Rattle.ec_protocol.specs.Server.{add_claimed};
ghost use Rattle.ec_protocol.specs.declared.clerk.Clerk.{Clerk};
ghost use Rattle.ec_protocol.specs.declared.server.Server.{Server};
ghost use Rattle.ec_quiet.specs.Facts.{IsOrderly};
ghost use Rattle.ec_machine_laws.specs.Holding.{AreOwn};
ghost use Rattle.ec_machine_laws.specs.Serving.{lowering, giving_ids};

/// An orderly server stays so where wants are noted or leave, where an open session is granted a
/// token that conflicts with nobody's, and where one gives a token back.
pub fn tokens_change_in_order()
    ensures wants { (v : Server) (clerks : Table Clerk) (ws : List Want) → IsOrderly v clerks → IsOrderly (record v { recalls = ws }) clerks }
    ensures grant { (v : Server) (clerks : Table Clerk) (c ss x n : ℕ) (h : Mode) (sl : Slot) → IsOrderly v clerks → slot v.durable c ≡ Some sl → sl.session ≡ ss → sl.is_open ≡ true → is_free h ≡ false → is_clear v.tokens ss x h ≡ true
        → IsOrderly (record v { number = n; tokens = granted ss x h n v.tokens }) clerks }
    ensures back { (v : Server) (clerks : Table Clerk) (ss x n : ℕ) (to : Mode) → IsOrderly v clerks → fits_back (token v.tokens ss x) n to ≡ true → IsOrderly (lowering ss x to n v) clerks }
{}

/// And where a batch is committed, where ids are granted on which no other session has a token, and
/// where a clerk that runs and has no session open opens the next one.
pub fn records_are_committed_in_order()
    ensures batch { (v : Server) (clerks : Table Clerk) (c ss b : ℕ) (ops : List (ℕ × Update)) (d : Durable) (sl : Slot) → IsOrderly v clerks → slot v.durable c ≡ Some sl → step (Batch c ss b ops) v.durable ≡ Ok d
        → IsOrderly (record v { durable = d }) clerks }
    ensures ids { (v : Server) (clerks : Table Clerk) (c ss got first : ℕ) (d : Durable) (sl : Slot) → IsOrderly v clerks → slot v.durable c ≡ Some sl → sl.session ≡ ss → sl.is_open ≡ true
        → AreOwn ss (run first ids_per_grant) v.tokens → step (Ids c ss got first) v.durable ≡ Ok d → IsOrderly (giving_ids ss first d v) clerks }
    ensures open { (v : Server) (clerks : Table Clerk) (c : ℕ) (age : Age) (d : Durable) → IsOrderly v clerks → c < 16 → T (is_some (at c clerks)) → ((sl : Slot) → slot v.durable c ≡ Some sl → sl.is_open ≡ false)
        → step (Open c age v.durable.next_session) v.durable ≡ Ok d → IsOrderly (add_claimed v.durable.next_session (record v { durable = d })) clerks }
{}

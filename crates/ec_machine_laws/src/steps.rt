// A server's step on one message, where one want waits at most.
ghost use Rattle.std.specs.Prelude.{◌≡◌, ◌==◌, ◌+◌, ◌||◌, ℕ, Bool, true, false, filter, List, [], ◌∷◌, ◌++◌, map, nat_le, Option, None, Some, Ok};
ghost use Rattle.ec_base.specs.Limits.{last_counter};
ghost use Rattle.ec_base.specs.declared.ids.Age.{Age};
ghost use Rattle.ec_base.specs.declared.ids.Hold.{Hold as Mode};
ghost use Rattle.ec_volume.specs.declared.update.Update.{Update};
ghost use Rattle.ec_sessions.specs.Slots.{greeting};
ghost use Rattle.ec_sessions.specs.Windows.{has};
ghost use Rattle.ec_sessions.specs.declared.slot.Greeting.TheVariants.{Greater};
ghost use Rattle.ec_sessions.specs.declared.slot.Slot.{Slot};
ghost use Rattle.ec_sessions.specs.OfTokens.Tokens.{Holder, token, conflicts, is_clear, fits_back};
ghost use Rattle.ec_sessions.specs.OfRecall.Due.{recall_of, told_of, actions, wants_after};
ghost use Rattle.ec_sessions.specs.declared.recall.want.Want.{Want};
ghost use Rattle.ec_wire.specs.declared.msg.Msg.TheVariants.{Hello, Want as WantSent, Back, Flush, Room, Claim, Opened, Kept, Ids, NoRoom};
ghost use Rattle.ec_durable.specs.Durable.{step, slot, live, reserved, is_full};
ghost use Rattle.ec_durable.specs.declared.record.Record.TheVariants as record_of;
ghost use Rattle.ec_durable.specs.declared.state.Durable.{Durable};
ghost use Rattle.ec_protocol.specs.Server.{Serving, serving, serve, take, grant, act_all, is_last_number, in_session, all_claimed, may_write, add_claimed, forget_old, ids_are_spent};
ghost use Rattle.ec_protocol.specs.declared.server.Server.{Server};
ghost use Rattle.ec_machine_laws.specs.Serving.{with_wants, new_want, telling, recalls_of, granting, lowering, giving_ids, IsAtWork, IsKnown};

/// Recalls are sent one behind the other, and nothing else changes. A grant takes the next number.
pub fn recalls_and_grants_are_sent()
    ensures recalls { (t : Serving) (w : Want) (gs : List Holder) → act_all (map (recall_of w) gs) t ≡ record t { sent = t.sent ++ recalls_of t w gs } }
    ensures grant { (t : Serving) (ss x : ℕ) (h : Mode) → is_last_number t ≡ false → grant ss x h t ≡ granting ss x h t }
{}

/// A message of a session that has claimed in this epoch is taken.
pub fn messages_of_claimed_sessions_are_taken()
    ensures { (c ss e : ℕ) (sl : Slot) (t : Serving) → IsAtWork c ss e sl t → (needs_no_claim : Bool) (f : Slot → Serving → Serving) → in_session c ss e needs_no_claim f t ≡ f sl t }
{}

/// The only want is granted at once where nobody holds what conflicts; else all that do are
/// recalled, and the want waits.
pub fn wants_are_granted_or_wait()
    ensures granted { (c ss e x last : ℕ) (h : Mode) (sl : Slot) (s : Server) → IsAtWork c ss e sl (serving s) → s.recalls ≡ [] → all_claimed s ≡ true → IsKnown (token s.tokens ss x) last
        → is_clear s.tokens ss x h ≡ true → take c (WantSent ss e x h last) s ≡ grant ss x h (serving s) }
    ensures waits { (c ss e x last : ℕ) (h : Mode) (sl : Slot) (s : Server) → IsAtWork c ss e sl (serving s) → s.recalls ≡ [] → all_claimed s ≡ true → IsKnown (token s.tokens ss x) last
        → is_clear s.tokens ss x h ≡ false → take c (WantSent ss e x h last) s
        ≡ record (serving s) { server = record s { recalls = telling (conflicts s.tokens ss x h) (new_want ss x h) ∷ [] }; sent = recalls_of (serving s) (new_want ss x h) (conflicts s.tokens ss x h) } }
{}

/// A token given back lowers the session's token. Where a want waits for it whose conflicting
/// holders were told, the last one that is given back lets the want be granted, and before that
/// nothing is sent.
pub fn backs_let_wants_be_granted()
    ensures alone { (c ss e x n : ℕ) (to : Mode) (sl : Slot) (s : Server) → IsAtWork c ss e sl (serving s) → s.recalls ≡ [] → fits_back (token s.tokens ss x) n to ≡ true
        → take c (Back ss e x n to) s ≡ serving (lowering ss x to n s) }
    ensures waits { (c ss e x n : ℕ) (to : Mode) (sl : Slot) (s : Server) (w : Want) (gs : List Holder) (p : Holder → Bool) → IsAtWork c ss e sl (serving s) → s.recalls ≡ w ∷ [] → all_claimed s ≡ true
        → fits_back (token s.tokens ss x) n to ≡ true → w.told ≡ map told_of gs → conflicts (lowering ss x to n s).tokens w.session w.obj w.hold ≡ filter p gs → is_clear (lowering ss x to n s).tokens w.session w.obj w.hold ≡ false
        → take c (Back ss e x n to) s ≡ with_wants (telling (conflicts (lowering ss x to n s).tokens w.session w.obj w.hold) w ∷ []) (serving (lowering ss x to n s)) }
    ensures granted { (c ss e x n : ℕ) (to : Mode) (sl : Slot) (s : Server) (w : Want) → IsAtWork c ss e sl (serving s) → s.recalls ≡ w ∷ [] → all_claimed s ≡ true
        → fits_back (token s.tokens ss x) n to ≡ true → is_clear (lowering ss x to n s).tokens w.session w.obj w.hold ≡ true
        → take c (Back ss e x n to) s ≡ grant w.session w.obj w.hold (with_wants [] (serving (lowering ss x to n s))) }
{}

/// A batch that is new, on tokens for writing and accepted, is committed and answered; where
/// nothing is due of the wants, nothing else comes of it.
pub fn batches_are_committed_and_answered()
    ensures { (c ss e b : ℕ) (ops : List (ℕ × Update)) (sl : Slot) (s : Server) (d : Durable) → IsAtWork c ss e sl (serving s) → has sl.window b ≡ false → may_write s.tokens ss ops ≡ true
        → step (record_of.Batch c ss b ops) s.durable ≡ Ok d → actions s.tokens s.recalls ≡ [] → wants_after s.tokens s.recalls ≡ s.recalls
        → take c (Flush ss e b ops) s ≡ record { server = record s { durable = d }; sent = (c, Kept ss d.epoch b) ∷ []; rec = Some (record_of.Batch c ss b ops); spent = None } }
{}

/// A second claim changes nothing.
pub fn second_claims_change_nothing()
    ensures { (c ss e : ℕ) (list : List (ℕ × Mode)) (sl : Slot) (s : Server) → IsAtWork c ss e sl (serving s) → s.recalls ≡ [] → take c (Claim ss e list) s ≡ serving s }
{}

/// A greeting of a greater age opens a session, which has claimed.
pub fn greetings_open_sessions()
    ensures { (c : ℕ) (age : Age) (s : Server) (d : Durable) (old : Option ℕ) → s.recalls ≡ [] → greeting (slot s.durable c) age ≡ Greater old → nat_le last_counter s.durable.next_session ≡ false
        → step (record_of.Open c age s.durable.next_session) s.durable ≡ Ok d → take c (Hello c age) s
        ≡ record {
          server = add_claimed s.durable.next_session (forget_old old (record s { durable = d }));
          sent = (c, Opened age s.durable.next_session d.epoch) ∷ [];
          rec = Some (record_of.Open c age s.durable.next_session);
          spent = None;
        } }
{}

/// Ids are granted where they have room, and refused with the two counts where they don't.
pub fn rooms_are_granted_or_refused()
    ensures refused { (c ss e got ask : ℕ) (sl : Slot) (s : Server) → IsAtWork c ss e sl (serving s) → s.recalls ≡ [] → (got == sl.grants) ≡ true → is_full s.durable ≡ true
        → take c (Room ss e got ask) s ≡ record (serving s) { sent = (c, NoRoom ss s.durable.epoch ask (live s.durable) (reserved s.durable)) ∷ [] } }
    ensures granted { (c ss e got ask : ℕ) (sl : Slot) (s : Server) (d : Durable) → IsAtWork c ss e sl (serving s) → s.recalls ≡ [] → (got == sl.grants) ≡ true → is_full s.durable ≡ false
        → ids_are_spent got (serving s) ≡ false → is_last_number (serving s) ≡ false → step (record_of.Ids c ss got s.durable.next_id) s.durable ≡ Ok d
        → take c (Room ss e got ask) s ≡ record { server = giving_ids ss s.durable.next_id d s; sent = (c, Ids ss d.epoch got (s.number + 1) s.durable.next_id) ∷ []; rec = Some (record_of.Ids c ss got s.durable.next_id); spent = None } }
{}

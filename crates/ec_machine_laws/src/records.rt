// What records leave of the slots.
ghost use Rattle.std.specs.Prelude.{◌≡◌, ◌+◌, ◌<◌, ℕ, List, length, Option, Some, Ok};
ghost use Rattle.ec_base.specs.declared.ids.Age.{Age};
ghost use Rattle.ec_volume.specs.declared.update.Update.{Update};
ghost use Rattle.ec_sessions.specs.Limits.{ids_per_grant};
ghost use Rattle.ec_sessions.specs.Slots.{granted, new_slot};
ghost use Rattle.ec_sessions.specs.Windows.{after_mark};
ghost use Rattle.ec_sessions.specs.declared.slot.Slot.{Slot};
ghost use Rattle.ec_durable.specs.Durable.{step, slot};
ghost use Rattle.ec_durable.specs.declared.record.Record.TheVariants.{Batch, Open, Ids};
ghost use Rattle.ec_durable.specs.declared.state.Durable.{Durable};
ghost use Rattle.ec_machine_laws.specs.Records.{IsRestOf};

/// A batch marks its number in the window of its clerk's slot and spends ids there. All else stays:
/// the other slots, the next session and the next id.
pub fn batches_change_one_slot()
    ensures own { (c s b : ℕ) (ops : List (ℕ × Update)) (d e : Durable) (sl : Slot) → slot d c ≡ Some sl → step (Batch c s b ops) d ≡ Ok e
        → (unspent : List ℕ) × (slot e c ≡ Some (record sl { window = after_mark sl.window b; unspent = unspent })) }
    ensures rest { (c s b : ℕ) (ops : List (ℕ × Update)) (d e : Durable) (sl : Slot) → slot d c ≡ Some sl → step (Batch c s b ops) d ≡ Ok e → IsRestOf c d e }
    ensures session { (c s b : ℕ) (ops : List (ℕ × Update)) (d e : Durable) (sl : Slot) → slot d c ≡ Some sl → step (Batch c s b ops) d ≡ Ok e → e.next_session ≡ d.next_session }
    ensures id { (c s b : ℕ) (ops : List (ℕ × Update)) (d e : Durable) (sl : Slot) → slot d c ≡ Some sl → step (Batch c s b ops) d ≡ Ok e → e.next_id ≡ d.next_id }
{}

/// A grant of ids is one more of its clerk's slot, with the ids; the next id is behind them.
pub fn grants_of_ids_change_one_slot()
    ensures own { (c s got first : ℕ) (d e : Durable) (sl : Slot) → slot d c ≡ Some sl → step (Ids c s got first) d ≡ Ok e → slot e c ≡ granted first (Some sl) }
    ensures rest { (c s got first : ℕ) (d e : Durable) → step (Ids c s got first) d ≡ Ok e → IsRestOf c d e }
    ensures session { (c s got first : ℕ) (d e : Durable) → step (Ids c s got first) d ≡ Ok e → e.next_session ≡ d.next_session }
    ensures id { (c s got first : ℕ) (d e : Durable) → step (Ids c s got first) d ≡ Ok e → e.next_id ≡ first + ids_per_grant }
{}

/// An opening makes the slot a new one, and the next session is one more.
pub fn openings_change_one_slot()
    ensures own { (c s : ℕ) (age : Age) (d e : Durable) → c < length d.sessions → step (Open c age s) d ≡ Ok e → slot e c ≡ Some (new_slot age s) }
    ensures rest { (c s : ℕ) (age : Age) (d e : Durable) → step (Open c age s) d ≡ Ok e → IsRestOf c d e }
    ensures session { (c s : ℕ) (age : Age) (d e : Durable) → step (Open c age s) d ≡ Ok e → e.next_session ≡ s + 1 }
    ensures id { (c s : ℕ) (age : Age) (d e : Durable) → step (Open c age s) d ≡ Ok e → e.next_id ≡ d.next_id }
{}

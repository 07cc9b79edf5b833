// What holds of all windows and slots.
ghost use Rattle.std.specs.Prelude.{◌≡◌, ◌==◌, ◌≢◌, ◌&&◌, not, ◌↔◌, ◌<◌, ◌≤◌, ◌+◌, ◌++◌, ℕ, List, Option, length, true, false};
ghost use Rattle.std.specs.List.Sorted.{IsStrictlyIncreasing};
ghost use Rattle.ec_sessions.specs.declared.slot.Slot.{Slot};
ghost use Rattle.ec_sessions.specs.Slots.{Slots, slot_at, with_slot, sixteen, with_ids, unspent_of, is_reserved, spent};
ghost use Rattle.ec_sessions.specs.Windows.{new_window, has};
ghost use Rattle.ec_sessions.specs.WindowMarks.{after_marks, newly_marked, times};

/// Over every list of marks each number is answered `Marked` at most once, and a new window then has of the numbers
/// from 1 on exactly those that were. Its `low` stands before the first one that it doesn't have.
pub fn marks_of_a_window()
    ensures has { (numbers : List ℕ) (n : ℕ) → 1 ≤ n → (has (after_marks new_window numbers) n ≡ true) ↔ (1 ≤ times n (newly_marked new_window numbers)) }
    ensures once { (numbers : List ℕ) (n : ℕ) → times n (newly_marked new_window numbers) ≤ 1 }
    ensures low { (numbers : List ℕ) → has (after_marks new_window numbers) ((after_marks new_window numbers).low + 1) ≡ false }
{}

/// Only one clerk's slot changes.
pub fn one_slot()
    ensures same { (clerk : ℕ) (slot : Option Slot) (slots : Slots) → clerk < length slots → slot_at (with_slot clerk slot slots) clerk ≡ slot }
    ensures others { (clerk other : ℕ) (slot : Option Slot) (slots : Slots) → other ≢ clerk → slot_at (with_slot clerk slot slots) other ≡ slot_at slots other }
{}

/// A further id is reserved behind one that is spent exactly where it was before, and is another one.
pub fn one_spent()
    ensures { (slot : Option Slot) (id other : ℕ) → IsStrictlyIncreasing (unspent_of slot) → is_reserved (spent id slot) other ≡ (is_reserved slot other && not (other == id)) }
{}

/// Sixteen ids above all others stand behind them.
pub fn ids_behind()
    ensures { (first : ℕ) (ids : List ℕ) → ((id : ℕ) → 1 ≤ times id ids → id < first) → with_ids first ids ≡ ids ++ sixteen first }
{}

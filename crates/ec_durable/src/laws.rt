// What holds of a state besides the tree of its volume.
ghost use Rattle.std.specs.Prelude.{◌≡◌, ◌≤◌, ℕ, List, Ok};
ghost use Rattle.ec_durable.specs.declared.record.Record.{Record};
ghost use Rattle.ec_durable.specs.declared.state.Durable.{Durable};
ghost use Rattle.ec_durable.specs.Durable.{formatted, step, steps};
ghost use Rattle.ec_durable.specs.Steps.{AreSound, AreAllSound, IdsAreBelow};
ghost use Rattle.ec_durable.specs.WellFormed.{IsInOrder, least_max_objects, most_max_objects};

/// A record of sound updates that steps keeps a state in order: images stay within their limits, no id is both live and
/// unspent or unspent twice, ids stay below the next one and within the greatest number of objects, and sessions' numbers
/// stay apart and below the next one. So do such records one after the other. In such a state each unspent id is below
/// the next one, as a step asks.
pub fn records_keep_states_in_order()
    ensures step { (r : Record) (d e : Durable) → IsInOrder d → AreSound r → step r d ≡ Ok e → IsInOrder e }
    ensures steps { (rs : List Record) (d e : Durable) → IsInOrder d → AreAllSound rs → steps rs d ≡ Ok e → IsInOrder e }
    ensures below { (d : Durable) → IsInOrder d → IdsAreBelow d }
{}

/// The formatted state of 32 to 1,024 objects is so.
pub fn formatted_states_are_in_order()
    ensures { (most : ℕ) → least_max_objects ≤ most → most ≤ most_max_objects → IsInOrder (formatted most) }
{}

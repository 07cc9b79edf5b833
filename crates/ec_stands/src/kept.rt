// Durable states that stay well formed.
ghost use Rattle.std.specs.Prelude.{◌≡◌, ◌≤◌, ℕ, List, Ok};
ghost use Rattle.ec_durable.specs.declared.record.Record.{Record};
ghost use Rattle.ec_durable.specs.declared.state.Durable.{Durable};
ghost use Rattle.ec_durable.specs.Durable.{formatted, step, steps};
ghost use Rattle.ec_durable.specs.Steps.{AreSound, AreAllSound};
ghost use Rattle.ec_durable.specs.WellFormed.{WellFormed, least_max_objects, most_max_objects};

/// A record of sound updates that steps keeps a state well formed, and so do such records one after the other.
pub fn records_keep_states_well_formed()
    ensures step { (r : Record) (d e : Durable) → WellFormed d → AreSound r → step r d ≡ Ok e → WellFormed e }
    ensures steps { (rs : List Record) (d e : Durable) → WellFormed d → AreAllSound rs → steps rs d ≡ Ok e → WellFormed e }
{}

/// The formatted state of 32 to 1,024 objects is so.
pub fn formatted_states_are_well_formed()
    ensures { (most : ℕ) → least_max_objects ≤ most → most ≤ most_max_objects → WellFormed (formatted most) }
{}

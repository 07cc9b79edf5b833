// How lines stand in a history.
ghost use Rattle.std.specs.Prelude.{◌≡◌, [], ◌∷◌};
ghost use Rattle.ec_history.specs.Placing.{place};
ghost use Rattle.ec_runs.specs.OfRows.Ended.{late_read, second_start};
ghost use Rattle.ec_runs.specs.OfRows.Histories.{late_read_placed, late_write_placed, second_start_placed};
ghost use Rattle.ec_runs.specs.OfRows.WrongLines.{late_write};

/// An answer behind the end of its session, of which the clerk was not told, stands before the loss.
pub fn places_late_answers()
    ensures late_read { place late_read ≡ late_read_placed }
    ensures late_write { place (late_write (1 ∷ 2 ∷ [])) ≡ late_write_placed }
{}

/// The losses of two starts of one clerk stand each where its session ended.
pub fn places_two_starts()
    ensures second_start { place second_start ≡ second_start_placed }
{}

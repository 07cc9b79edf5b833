// Long transcripts.
ghost use Rattle.std.specs.Prelude.{[]};
ghost use Rattle.ec_history.specs.Legal.{IsLegal, from_formatted};
ghost use Rattle.ec_history.specs.Placing.{ArePlaceable, place};
ghost use Rattle.ec_runs.specs.OfRows.Long.{full_directory, renamed_files};

/// A full directory takes no new name, but for an old one.
pub fn accepts_full_directory()
    ensures placeable { ArePlaceable [] full_directory }
    ensures legal { IsLegal from_formatted 1024 (place full_directory) }
{}

/// Forty files, each made, written and renamed, which another clerk then lists.
pub fn accepts_renamed_files()
    ensures placeable { ArePlaceable [] renamed_files }
    ensures legal { IsLegal from_formatted 1024 (place renamed_files) }
{}

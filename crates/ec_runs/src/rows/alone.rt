// Transcripts of one clerk.
ghost use Rattle.std.specs.Prelude.{[]};
ghost use Rattle.ec_history.specs.Legal.{IsLegal, from_formatted};
ghost use Rattle.ec_history.specs.Lines.{AreCovered};
ghost use Rattle.ec_history.specs.Placing.{ArePlaceable, place};
ghost use Rattle.ec_runs.specs.OfRows.Alone.{own_write, malformed_line, refusals, replaced_directory, chowned_file, farthest_byte, refused_loop, moved_file, tied_files, untied_files, closed_gate, stop_behind_open_gate, two_stops, repeated_batch};

/// A clerk reads what it wrote.
pub fn accepts_own_write()
    ensures placeable { ArePlaceable [] own_write }
    ensures legal { IsLegal from_formatted 1024 (place own_write) }
{}

/// A last line that is outside the grammar changes nothing.
pub fn accepts_malformed_line()
    ensures placeable { ArePlaceable [] malformed_line }
    ensures legal { IsLegal from_formatted 1024 (place malformed_line) }
{}

/// Refused calls have no operation.
pub fn accepts_refusals()
    ensures placeable { ArePlaceable [] refusals }
    ensures legal { IsLegal from_formatted 1024 (place refusals) }
{}

/// A directory takes the place of an empty one.
pub fn accepts_replaced_directory()
    ensures placeable { ArePlaceable [] replaced_directory }
    ensures legal { IsLegal from_formatted 1024 (place replaced_directory) }
{}

/// A file gets an owner, which its stat shows.
pub fn accepts_chowned_file()
    ensures placeable { ArePlaceable [] chowned_file }
    ensures legal { IsLegal from_formatted 1024 (place chowned_file) }
{}

/// A write of the last byte that a file may have.
pub fn accepts_farthest_byte()
    ensures placeable { ArePlaceable [] farthest_byte }
    ensures legal { IsLegal from_formatted 1024 (place farthest_byte) }
{}

/// A directory moves into another one, which then may not move below it.
pub fn accepts_refused_loop()
    ensures placeable { ArePlaceable [] refused_loop }
    ensures legal { IsLegal from_formatted 1024 (place refused_loop) }
{}

/// A file's move into another directory becomes durable without an earlier operation on the root.
pub fn accepts_moved_file()
    ensures placeable { ArePlaceable [] moved_file }
    ensures legal { IsLegal from_formatted 1024 (place moved_file) }
    ensures covered { AreCovered from_formatted moved_file }
{}

/// Two files tied by `forder`: an `fsync` of the second one makes the write of the first one durable.
pub fn accepts_tied_files()
    ensures placeable { ArePlaceable [] tied_files }
    ensures legal { IsLegal from_formatted 1024 (place tied_files) }
    ensures covered { AreCovered from_formatted tied_files }
{}

/// The same without `forder`: the `fsync` makes one write durable.
pub fn accepts_untied_files()
    ensures placeable { ArePlaceable [] untied_files }
    ensures legal { IsLegal from_formatted 1024 (place untied_files) }
    ensures covered { AreCovered from_formatted untied_files }
{}

/// The server stops before the record of an `fsync` is whole, and the batch travels again.
pub fn accepts_closed_gate()
    ensures placeable { ArePlaceable [] closed_gate }
    ensures legal { IsLegal from_formatted 1024 (place closed_gate) }
    ensures covered { AreCovered from_formatted closed_gate }
{}

/// The server stops behind the record of an `fsync`, and the restart finds it durable.
pub fn accepts_open_gate()
    ensures placeable { ArePlaceable [] stop_behind_open_gate }
    ensures legal { IsLegal from_formatted 1024 (place stop_behind_open_gate) }
    ensures covered { AreCovered from_formatted stop_behind_open_gate }
{}

/// Two stops of the server lose nothing that a clerk holds.
pub fn accepts_two_stops()
    ensures placeable { ArePlaceable [] two_stops }
    ensures legal { IsLegal from_formatted 1024 (place two_stops) }
{}

/// A batch that travelled twice has its effect once.
pub fn accepts_repeated_batch()
    ensures placeable { ArePlaceable [] repeated_batch }
    ensures legal { IsLegal from_formatted 1024 (place repeated_batch) }
    ensures covered { AreCovered from_formatted repeated_batch }
{}

// Scripts of one clerk.
ghost use Rattle.ec_protocol.specs.Runs.{Shows};
ghost use Rattle.ec_protocol.specs.Alone.{chowned_file, malformed_line, moved_file, own_write, refusals, refused_loop, repeated_batch, replaced_directory, tied_files, unknown_operation, untied_files};

/// A clerk reads what it wrote.
pub fn shows_own_write()
    ensures { Shows own_write }
{}

/// A line outside the grammar ends the run.
pub fn shows_malformed_line()
    ensures { Shows malformed_line }
{}

/// A push of an operation that was never issued ends the run.
pub fn shows_unknown_operation()
    ensures { Shows unknown_operation }
{}

/// Each refusal that a few calls meet.
pub fn shows_refusals()
    ensures { Shows refusals }
{}

/// A directory takes the place of an empty one.
pub fn shows_replaced_directory()
    ensures { Shows replaced_directory }
{}

/// A file gets an owner, which its stat shows.
pub fn shows_chowned_file()
    ensures { Shows chowned_file }
{}

/// A directory moves into another one, which then may not move below it.
pub fn shows_refused_loop()
    ensures { Shows refused_loop }
{}

/// A file's move becomes durable without an earlier operation on the root.
pub fn shows_moved_file()
    ensures { Shows moved_file }
{}

/// Two files tied by forder become durable together.
pub fn shows_tied_files()
    ensures { Shows tied_files }
{}

/// The same without forder: one write becomes durable.
pub fn shows_untied_files()
    ensures { Shows untied_files }
{}

/// A batch that travels twice has its effect once.
pub fn shows_repeated_batch()
    ensures { Shows repeated_batch }
{}

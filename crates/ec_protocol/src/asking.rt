// Scripts of what is asked for, and in which order.
ghost use Rattle.ec_protocol.specs.Runs.{Shows, ShowsWithin};
ghost use Rattle.ec_protocol.specs.Asking.{endless, closures_in_turn, fsync_before_write, full_window, pushed_again, sync_below_loss};

/// Recalls ask before waiting calls, and each closure once.
pub fn shows_closures_in_turn()
    ensures { Shows closures_in_turn }
{}

/// An fsync waits for what was issued before it began.
pub fn shows_fsync_before_write()
    ensures { Shows fsync_before_write }
{}

/// A push of what is durable or lost does nothing.
pub fn shows_pushed_again()
    ensures { Shows pushed_again }
{}

/// A sync of a clerk that is cut off touches no object.
pub fn shows_sync_below_loss()
    ensures { Shows sync_below_loss }
{}

/// Eight batches are under way, and no ninth goes out.
pub fn shows_full_window()
    ensures { Shows full_window }
{}

/// Two calls that take each other's tokens away for ever: the line breaks off.
pub fn shows_endless()
    ensures { ShowsWithin 60 endless }
{}

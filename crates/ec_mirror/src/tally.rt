// How often a mirror was called, failed and stopped.
/// What the next read, write or sync does.
#[derive(Clone, Copy, Drop)]
pub(crate) enum Turn {
    Goes,
    /// It stops: a write is carried out on one disk.
    Stops,
}

#[derive(Clone, Copy, Drop)]
pub(crate) struct Tally {
    pub(crate) calls: u64,
    pub(crate) faults: u64,
    pub(crate) stops: u64,
    pub(crate) armed: Option<u64>,
    /// The fault of one disk was the mirror's: in a power cut, or at a question for the length behind a write that wasn't done.
    pub(crate) failed_alone: bool,
}

impl Tally {
    ghost use Rattle.std.specs.Prelude.{◌≡◌, None, Some, true, false};
    ghost use Rattle.ec_base.specs.Outside.{one_more};
    ghost use Rattle.ec_disk.specs.Effects.{Counted, CountsDown, IsDue};
    ghost use Rattle.ec_mirror.specs.Tally.{counts_of};
    ghost use Rattle.ec_mirror.specs.declared.tally.Turn.TheVariants as turn;

    pub(crate) fn new() -> Tally
        ensures { result ≡ record { calls = 0; faults = 0; stops = 0; armed = None; failed_alone = false } }
    {
        Tally {
            calls: 0,
            faults: 0,
            stops: 0,
            armed: None,
            failed_alone: false,
        }
    }

    /// The turn of a read, write or sync.
    pub(crate) fn next(&mut self) -> Turn
        ensures counts { Counted (counts_of self.old) (counts_of self.new) ⊥ (result ≡ turn.Goes → ⊥) }
        ensures armed { CountsDown self.old.armed self.new.armed (result ≡ turn.Goes) (result ≡ turn.Goes → ⊥) }
        ensures due { IsDue self.old.armed → result ≡ turn.Goes → ⊥ }
        ensures call { self.new.calls ≡ one_more self.old.calls }
        ensures faults { self.new.faults ≡ self.old.faults }
        ensures alone { self.new.failed_alone ≡ self.old.failed_alone }
    {
        self.calls = self.calls.saturating_add(1);
        match self.armed {
            None => Turn::Goes,
            Some(left) => {
                self.armed = Some(left.saturating_sub(1));
                if left > 1 {
                    return Turn::Goes;
                }
                self.stops = self.stops.saturating_add(1);
                Turn::Stops
            }
        }
    }

    /// Counts a question for the length, and tells whether the mirror has stopped.
    pub(crate) fn next_len(&mut self) -> bool
        ensures counts { Counted (counts_of self.old) (counts_of self.new) ⊥ (result ≡ true) }
        ensures armed { self.new.armed ≡ self.old.armed }
        ensures stopped { result ≡ true → self.old.armed ≡ Some 0 }
        ensures goes { result ≡ false → self.old.armed ≡ Some 0 → ⊥ }
        ensures call { self.new.calls ≡ one_more self.old.calls }
        ensures faults { self.new.faults ≡ self.old.faults }
        ensures alone { self.new.failed_alone ≡ self.old.failed_alone }
    {
        self.calls = self.calls.saturating_add(1);
        let has_stopped = self.armed == Some(0);
        if has_stopped {
            self.stops = self.stops.saturating_add(1);
        }
        has_stopped
    }

    pub(crate) fn fault(&mut self)
        ensures { self.new ≡ record self.old { faults = one_more self.old.faults } }
    {
        self.faults = self.faults.saturating_add(1);
    }
}

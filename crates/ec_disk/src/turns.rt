// What the next call of a disk does: it goes on, fails or stops.
ghost use Rattle.std.specs.Prelude.{◌≡◌, nat_eq};
ghost use Rattle.std.specs.List.{list_any};
ghost use Rattle.std.specs.List.Sorted.{IsNonDecreasing};

#[derive(Clone, Copy, Debug, Drop, PartialEq, Eq)]
pub enum Turn {
    Goes,
    Fails,
    Stops,
}

/// The calls so far, the faults and stops among them, and those to come.
#[derive(Drop)]
pub struct Turns {
    fails: Vec<u64>,
    calls: u64,
    armed: Option<u64>,
    faults: u64,
    stops: u64,
    ghost sorted: { IsNonDecreasing fails.items },
}

// Whether a number is in a sorted list.
fn is_listed(numbers: &[u64], number: u64) -> bool
    requires { IsNonDecreasing numbers.now }
    ensures { result ≡ list_any (λ n. nat_eq n number) numbers.now }
{
    numbers.binary_search(&number).is_ok()
}

impl Turns {
    ghost use Rattle.std.specs.Prelude.{◌≡◌, ◌≤◌, None, Some, ⊤};
    ghost use Rattle.ec_disk.specs.Disk.{after_calls};
    ghost use Rattle.ec_disk.specs.Effects.{Counted, CountsDown};
    ghost use Rattle.ec_disk.specs.Turns.{counts_of, next_turn, next_len_turn, turn_of, next_call, is_due, has_stopped, faults_after, stops_after};
    ghost use Rattle.ec_disk.specs.declared.turns.Turn.TheVariants as turn;

    /// The calls whose numbers, from 1, are listed will fail.
    pub fn new(fails: Vec<u64>) -> Turns
        requires { IsNonDecreasing fails.items }
        ensures fails { result.fails ≡ fails }
        ensures calls { result.calls ≡ 0 }
        ensures counts { counts_of result ≡ record { calls = 0; faults = 0; stops = 0; armed = None } }
    {
        Turns {
            fails,
            calls: 0,
            armed: None,
            faults: 0,
            stops: 0,
        }
    }

    pub fn arm(&mut self, calls: u64)
        ensures { self.new ≡ record self.old { armed = Some calls } }
    {
        self.armed = Some(calls);
    }

    pub fn disarm(&mut self)
        ensures { self.new ≡ record self.old { armed = None } }
    {
        self.armed = None;
    }

    /// Counts a fault of the device.
    pub fn fault(&mut self)
        ensures counts { Counted (counts_of self.old) (counts_of self.new) ⊤ ⊥ }
        ensures others { self.new ≡ record self.old { faults = self.new.faults } }
    {
        self.faults = self.faults.saturating_add(1);
    }

    /// The turn of a read, write or sync.
    pub fn next(&mut self) -> Turn
        ensures turn { result ≡ next_turn self.old }
        ensures call { (self.new.fails ≡ self.old.fails) × (self.new.calls ≡ next_call self.old) }
        ensures counts { Counted (counts_of self.old) (counts_of self.new) (result ≡ turn.Fails) (result ≡ turn.Stops) }
        ensures armed { CountsDown self.old.armed self.new.armed (result ≡ turn.Goes) (result ≡ turn.Stops) }
    {
        let is_due = self.count_down();
        self.count(is_due)
    }

    /// The turn of a question for the length.
    pub fn next_len(&mut self) -> Turn
        ensures turn { result ≡ next_len_turn self.old }
        ensures call { (self.new.fails ≡ self.old.fails) × (self.new.calls ≡ next_call self.old) }
        ensures counts { Counted (counts_of self.old) (counts_of self.new) (result ≡ turn.Fails) (result ≡ turn.Stops) }
        ensures armed { self.new.armed ≡ self.old.armed }
    {
        let has_stopped = self.armed == Some(0);
        self.count(has_stopped)
    }

    // Whether the next counted call stops.
    fn count_down(&mut self) -> bool
        ensures due { result ≡ is_due self.old.armed }
        ensures after { self.new ≡ record self.old { armed = after_calls 1 self.old.armed } }
    {
        match self.armed {
            Some(left) => {
                self.armed = Some(left.saturating_sub(1));
                left <= 1
            }
            None => false,
        }
    }

    fn count(&mut self, is_due: bool) -> Turn
        ensures turn { result ≡ turn_of is_due self.old }
        ensures call { (self.new.fails ≡ self.old.fails) × (self.new.calls ≡ next_call self.old) }
        ensures armed { self.new.armed ≡ self.old.armed }
        ensures faults { self.new.faults ≡ faults_after result self.old.faults }
        ensures stops { self.new.stops ≡ stops_after result self.old.stops }
        ensures later { (self.old.faults ≤ self.new.faults) × (self.old.stops ≤ self.new.stops) }
    {
        self.calls = self.calls.saturating_add(1);
        if is_due {
            self.stops = self.stops.saturating_add(1);
            return Turn::Stops;
        }
        if is_listed(&self.fails, self.calls) {
            self.faults = self.faults.saturating_add(1);
            return Turn::Fails;
        }
        Turn::Goes
    }
}

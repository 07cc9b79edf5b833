// The lines shown so far, of which what they show of each clerk is kept.
ghost use Rattle.std.specs.Prelude.{◌≡◌, ◌++◌, ◌∷◌, [], IfOk, OnOk};
ghost use Rattle.ec_history.specs.Placing.{watch};

use ec_base::trace::Trace;
use ec_base::{ClerkId, LAST_COUNTER, NoMemory};
use ec_history::{Shown, Watch};
use ec_watch::{none_watched, note, starts_are_few, watch_of};
use std::alloc::Global;
use std::marker::Model;

#[derive(Drop)]
pub(crate) struct Lines {
    watches: Vec<Watch>,
    shown: Trace<Shown>,
    // how many lines there are
    count: u64,
    // a line was left in the middle
    is_broken: bool,
}

impl Model for Lines {
    ghost use Rattle.std.specs.Prelude.{List};
    ghost use Rattle.ec_history.specs.declared.shown.Shown.{Shown};
    ghost use Rattle.ec_world.specs.Noted.{AreKept};

    ghost Value = { List Shown };

    ghost view = { λ a. a.shown.items };

    ghost invariant = { λ a. ∥ AreKept a.is_broken a.watches.items a.shown.items a.count ∥₁ };
}

impl Lines {
    pub(crate) fn new(alloc: Global) -> Result<Lines, NoMemory>
        ensures { IfOk result (λ lines. lines ≡ []) }
    {
        Ok(Lines {
            watches: none_watched(alloc)?,
            shown: Trace::new(),
            count: 0,
            is_broken: false,
        })
    }

    // One more line.
    pub(crate) fn note(&mut self, alloc: Global, line: &Shown) -> Result<(), NoMemory>
        ensures { OnOk result (self.new ≡ self.old ++ line.now ∷ []) }
    {
        if self.is_broken || self.count >= LAST_COUNTER {
            return Err(NoMemory);
        }
        starts_are_few();
        self.is_broken = true;
        note(alloc, &mut self.watches, line)?;
        self.shown = self.shown.and(line);
        self.count += 1;
        self.is_broken = false;
        Ok(())
    }

    // What the lines show of the clerk.
    pub(crate) fn watch(&self, clerk: ClerkId) -> Result<&Watch, NoMemory>
        ensures { IfOk result (λ seen. seen.now ≡ watch clerk self.now) }
    {
        if self.is_broken {
            return Err(NoMemory);
        }
        Ok(watch_of(&self.watches, clerk))
    }
}

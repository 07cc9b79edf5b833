// Why a history isn't legal.
ghost use Rattle.std.specs.Prelude.{◌≡◌};

use ec_base::NoMemory;
use ec_history::Rule;
use thiserror::Error;

/// Why a transcript or a history isn't legal.
#[derive(Clone, Copy, Debug, Drop, PartialEq, Eq, Error)]
pub enum HistoryFault {
    /// This transcript line, from 1, breaks this rule.
    #[error("line {0} breaks a rule")]
    At(u32, Rule),
    #[error("out of memory")]
    NoMemory,
}

impl From<NoMemory> for HistoryFault {
    ghost use Rattle.ec_judge.specs.declared.fault.HistoryFault.TheVariants as fault;

    ghost from_gives = { λ _ e. e ≡ fault.NoMemory };

    fn from(_: NoMemory) -> Self {
        HistoryFault::NoMemory
    }
}

// Why a transcript has no history.
ghost use Rattle.std.specs.Prelude.{◌≡◌};

use ec_base::NoMemory;
use ec_history::Rule;
use thiserror::Error;

/// Why a transcript has no history.
#[derive(Clone, Copy, Debug, Drop, PartialEq, Eq, Error)]
pub enum PlaceFault {
    /// This line, from 1, breaks this rule.
    #[error("line {0} breaks a rule")]
    At(u32, Rule),
    #[error("out of memory")]
    NoMemory,
}

impl From<NoMemory> for PlaceFault {
    ghost use Rattle.ec_lines.specs.declared.fault.PlaceFault.TheVariants as fault;

    ghost from_gives = { λ _ e. e ≡ fault.NoMemory };

    fn from(_: NoMemory) -> Self {
        PlaceFault::NoMemory
    }
}

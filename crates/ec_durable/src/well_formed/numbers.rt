// Lists of numbers: whether one stands twice, and whether two lists have the same ones.
ghost use Rattle.std.specs.Prelude.{◌≡◌, ℕ, IfOk, MatchBool};
ghost use Rattle.ec_volume.specs.Update.{distinct};
ghost use Rattle.ec_sessions.specs.WindowMarks.{times};
ghost use Rattle.ec_durable.specs.OfWellFormed.WellFormed.{is_rising, Ascends};

use ec_base::NoMemory;

/// Whether no number stands twice.
pub(crate) fn are_distinct(numbers: Vec<u64>) -> Result<bool, NoMemory>
    ensures { IfOk result (λ are. are ≡ distinct numbers.items) }
{
    let numbers = sorted(numbers)?;
    Ok(is_rising(numbers.as_slice()))
}

/// Whether each number stands as often in one list as in the other, which ascends.
pub(crate) fn are_these(numbers: Vec<u64>, others: &[u64]) -> Result<bool, NoMemory>
    requires { Ascends others.now }
    ensures { IfOk result (λ are. MatchBool are ((n : ℕ) → times n numbers.items ≡ times n others.now) (((n : ℕ) → times n numbers.items ≡ times n others.now) → ⊥)) }
{
    let numbers = sorted(numbers)?;
    Ok(numbers.as_slice() == others)
}

fn sorted(numbers: Vec<u64>) -> Result<Vec<u64>, NoMemory>
    ensures ascends { IfOk result (λ sorted. Ascends sorted.items) }
    ensures same { IfOk result (λ sorted. (n : ℕ) → times n sorted.items ≡ times n numbers.items) }
{
    let mut numbers = numbers;
    numbers.sort()?;
    Ok(numbers)
}

// Whether each number is above the one before it.
fn is_rising(numbers: &[u64]) -> bool
    ensures { result ≡ is_rising numbers.now }
{
    match numbers {
        [first, second, ..] => *first < *second && is_rising(&numbers[1..]),
        _ => true,
    }
}

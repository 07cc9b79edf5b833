//! Where an armed disk stops. The function has an empty body, and its contract is a law.
ghost use Rattle.std.specs.Prelude.{◌≡◌, ◌<◌, ◌≤◌, ◌+◌, ℕ, Option, None, Some};
ghost use Rattle.ec_disk.specs.OfArm.Calls.{AreDone, Stops};

/// Of a disk that keeps to the clauses of `Disk`: where it's armed with a number, the read, write or sync of this number from there stops,
/// and no other one before it. A disk that isn't armed doesn't stop.
pub fn stops_follow_arm()
    ensures last { (n done : ℕ) (mid new : Option ℕ) → 1 ≤ n → AreDone done (Some n) mid → Stops mid new → done + 1 ≡ n }
    ensures before { (n done : ℕ) (mid : Option ℕ) → 1 ≤ n → AreDone done (Some n) mid → done < n }
    ensures never { (done : ℕ) (mid new : Option ℕ) → AreDone done None mid → Stops mid new → ⊥ }
{}

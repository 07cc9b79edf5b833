// Laws on faults: each function has an empty body, and its contract is a law.
ghost use Rattle.std.specs.Prelude.{◌≡◌, ℕ};
ghost use Rattle.ec_history.specs.History.{Base, History};
ghost use Rattle.ec_history.specs.Legal.{IsLegal};
ghost use Rattle.ec_history.specs.declared.rule.Rule.{Rule};
ghost use Rattle.ec_judge.specs.Faults.{IsFirstEntry};

/// A history is legal exactly where no entry of it is the first that breaks a rule.
pub fn legal_is_without_fault()
    ensures excludes { (base : Base) (most : ℕ) (h : History) (p : ℕ) (r : Rule) → IsFirstEntry base most h p r → ¬ (IsLegal base most h) }
    ensures legal { (base : Base) (most : ℕ) (h : History) → ((p : ℕ) (r : Rule) → ¬ (IsFirstEntry base most h p r)) → IsLegal base most h }
{}

/// There is one first entry that breaks a rule, and one first rule that it breaks.
pub fn faults_are_single()
    ensures { (base : Base) (most : ℕ) (h : History) (p q : ℕ) (r s : Rule) → IsFirstEntry base most h p r → IsFirstEntry base most h q s
        → (p ≡ q) × (r ≡ s) }
{}

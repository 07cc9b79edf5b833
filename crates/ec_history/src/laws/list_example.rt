// The premises of the laws of lists, overwrites, losses and closures can be met.
ghost use Rattle.std.specs.Prelude.{◌≡◌, ◌==◌, ◌||◌, ℕ, T, Bool, true, false, not, map, List, [], ◌∷◌, None};
ghost use Rattle.std.specs.List.{filter, list_all, list_any};
ghost use Rattle.std.specs.Ordering.{nat_cmp};
ghost use Rattle.std.specs.FinMap.{is_sorted};
ghost use Rattle.ec_volume.specs.Update.{operands, has_operand, member, fits, first_unfit};
ghost use Rattle.ec_volume.specs.Volume.{after, fits_in_turn, Fits};
ghost use Rattle.ec_order.specs.Order.{is_overwrite, share, under, closure};
ghost use Rattle.ec_history.specs.History.{Each, Throughout, updates, of_start, is_one_of, is_entry_of, issued_by, kept, without};
ghost use Rattle.ec_history.specs.Legal.{touches_none, IsLegal, from_formatted, is_closed, leaves};
ghost use Rattle.ec_history.specs.OfLaws.Needs.{holds_needed};
ghost use Rattle.ec_history.specs.OfLaws.Example.{two_files, writes};
ghost use Rattle.ec_history.specs.OfLaws.ListExample.{file, one_file, early, late_put, new_mode, make_g, overwrites, numbered_puts, two_starts};

/// Two overwrites and a new file fit; the overwrites change the file's operands alone, and the new
/// file is a stranger to them.
pub fn lists_can_fit()
    ensures tried { T (list_all (λ u. list_all (λ o. fits_in_turn o (one_file o) (early ∷ late_put ∷ make_g ∷ [])) (operands u)) (early ∷ late_put ∷ make_g ∷ [])) }
    ensures fitting { first_unfit late_put (after one_file (early ∷ [])) (operands late_put) ≡ None }
    ensures strangers { share late_put make_g ≡ false }
    ensures equal { (o : ℕ) → filter (has_operand o) (early ∷ make_g ∷ []) ≡ filter (has_operand o) (make_g ∷ early ∷ []) }
    ensures elsewhere { list_any (has_operand 3) (early ∷ late_put ∷ []) ≡ false }
{}

/// The overwrites fit the file, and their ranges don't meet.
pub fn overwrites_can_be_apart()
    ensures overwrites { (is_overwrite early ≡ true) × (is_overwrite late_put ≡ true) }
    ensures one_file { (has_operand 2 early ≡ true) × (has_operand 2 late_put ≡ true) }
    ensures fitting { T (fits early 2 file) × T (fits late_put 2 file) }
    ensures apart { under early late_put ≡ false }
{}

/// The later overwrite needs nothing of the earlier one: it may come first, and stay where the
/// earlier one is lost.
pub fn sets_can_hold_their_needs()
    ensures first { T (holds_needed (λ k. k.update) (is_one_of 0 1 (2 ∷ [])) overwrites) }
    ensures both { T (holds_needed (λ k. k.update) (λ k. is_one_of 0 1 (2 ∷ []) k || is_one_of 0 1 (1 ∷ []) k) overwrites) }
    ensures fitting { T (list_all (λ u. list_all (λ o. fits_in_turn o (one_file o) (updates overwrites)) (operands u)) (updates overwrites)) }
    ensures lost { T (is_closed (is_one_of 0 1 (1 ∷ [])) overwrites) }
{}

/// The change of mode needs both overwrites; a set of the later one alone holds its needs, and so
/// does the earlier one among the rest.
pub fn closures_can_be_met()
    ensures rising { T (is_sorted nat_cmp numbered_puts) }
    ensures of_mode { closure (λ n. n == 3) numbered_puts ≡ numbered_puts }
    ensures of_overwrite { closure (λ n. n == 2) numbered_puts ≡ (2, late_put) ∷ [] }
    ensures inside { T (holds_needed (λ x. x.1) (λ x. x.0 == 2) numbered_puts) }
    ensures whole { T (holds_needed (λ x. x.1) (λ x. member x.0 (map (λ y. y.0) numbered_puts)) numbered_puts) }
    ensures next { T (holds_needed (λ x. x.1) (λ x. x.0 == 1) (filter (λ x. not (x.0 == 2)) numbered_puts)) }
{}

/// Of two starts' writes one may be lost: what is left of its start is not ordered after it, and
/// the other start's call touched other objects.
pub fn losses_can_be_untouched()
    ensures kept { T (list_all (λ u. list_all (λ o. fits_in_turn o (two_files.volume o) (updates (kept two_files writes))) (operands u))
        (updates (kept two_files writes))) }
    ensures closed { T (is_closed (is_one_of 0 1 (1 ∷ [])) (filter (of_start 0 1) (kept two_files writes))) }
    ensures untouched { Throughout (λ h e. is_entry_of 0 1 e.1 ≡ false
        → T (touches_none two_files (kept two_files h) (filter (is_one_of 0 1 (1 ∷ [])) (kept two_files h)) e)) [] writes }
    ensures legal { IsLegal two_files 1024 writes }
    ensures fitting { Throughout (λ past e. Each (λ k. (o : ℕ)
        → T (not (has_operand o k.update) || fits k.update o (after two_files.volume (updates (kept two_files past)) o)))
        (issued_by two_files (kept two_files past) e)) [] writes }
{}

/// Why a call of another start counts, and not of another clerk alone: a start makes a file and the
/// next one of the clerk writes it. Where the first operation is lost, nothing of its start is
/// ordered after it and no other clerk touched its operands; but what is left doesn't fit.
pub fn another_start_counts()
    ensures legal { IsLegal from_formatted 1024 two_starts }
    ensures closed { T (is_closed (is_one_of 0 1 (1 ∷ [])) (filter (of_start 0 1) (kept from_formatted two_starts))) }
    ensures untouched { Throughout (λ h e. T (leaves from_formatted (kept from_formatted h) 0
        (filter (is_one_of 0 1 (1 ∷ [])) (kept from_formatted h)) e)) [] two_starts }
    ensures unfit { ¬ Fits from_formatted.volume (updates (without 0 1 (1 ∷ []) (kept from_formatted two_starts))) }
{}

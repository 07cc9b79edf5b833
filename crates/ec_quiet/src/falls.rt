// What a token that is wanted, granted or given back makes of what is left.
ghost use Rattle.std.specs.Prelude.{◌≡◌, ◌≤◌, ◌<◌, ◌⊎◌, ◌==◌, ◌+◌, ◌*◌, ℕ, T, true, false, [], length, None, Some};
ghost use Rattle.ec_base.specs.Tables.{Table};
ghost use Rattle.ec_base.specs.Holds.{rank, clash};
ghost use Rattle.ec_base.specs.declared.ids.Hold.{Hold as Mode};
ghost use Rattle.ec_base.specs.declared.ids.Hold.TheVariants.{Free};
ghost use Rattle.ec_volume.specs.Update.{member};
ghost use Rattle.ec_sessions.specs.OfTokens.Tokens.{Tokens, token, mode, conflicts, granted, lowered};
ghost use Rattle.ec_sessions.specs.OfTokens.SoundTokens.{IsSound};
ghost use Rattle.ec_sessions.specs.OfRecall.Due.{recall_to};
ghost use Rattle.ec_protocol.specs.declared.clerk.Clerk.{Clerk};
ghost use Rattle.ec_quiet.specs.Measure.{base, fresh_rank, Noted};
ghost use Rattle.ec_quiet.specs.Works.{Work};

/// A want on a touched object that is granted at once, where the clerk had less of its own of this
/// line, pays for a grant and a delivery; one that is noted pays for the recalls of all that
/// conflict, too.
pub fn wants_lower_what_is_left()
    ensures granted { (j : Work) (ts : Tokens) (clerks : Table Clerk) (x n : ℕ) (h : Mode) → IsSound ts → T (member x j.touched) → fresh_rank j.number (token ts j.session x) < rank h → j.number < n
        → base j None (granted j.session x h n ts) clerks + 672 ≤ base j None ts clerks }
    ensures noted { (j : Work) (ts : Tokens) (clerks : Table Clerk) (x : ℕ) (h : Mode) → T (member x j.touched) → fresh_rank j.number (token ts j.session x) < rank h
        → base j (Some (x, h)) ts clerks + (672 + 128 * length (conflicts ts j.session x h)) ≤ base j None ts clerks }
{}

/// A conflicting token that is given back to the mode that it was recalled to is as much as before,
/// as long as the want is noted; and so is all where the noted want is granted at last.
pub fn tokens_given_back_leave_what_is_left()
    ensures back { (j : Work) (ts : Tokens) (clerks : Table Clerk) (x t n : ℕ) (h : Mode) → IsSound ts → (t == j.session) ≡ false → clash (mode (token ts t x)) h ≡ true
        → base j (Some (x, h)) (lowered t x (recall_to h) n ts) clerks ≡ base j (Some (x, h)) ts clerks }
    ensures granted { (j : Work) (ts : Tokens) (clerks : Table Clerk) (x n : ℕ) (h : Mode) → IsSound ts → conflicts ts j.session x h ≡ [] → j.number < n
        → base j None (granted j.session x h n ts) clerks ≡ base j (Some (x, h)) ts clerks }
    ensures own { (j : Work) (w : Noted) (ts : Tokens) (clerks : Table Clerk) (x n : ℕ) → IsSound ts → (member x j.touched ≡ false) ⊎ (fresh_rank j.number (token ts j.session x) ≡ 0)
        → base j w (lowered j.session x Free n ts) clerks ≡ base j w ts clerks }
{}

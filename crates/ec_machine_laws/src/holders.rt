// Who holds tokens on an object, and what a change of one token leaves.
ghost use Rattle.std.specs.Prelude.{◌≡◌, ◌⊎◌, ◌==◌, ◌&&◌, ℕ, T, true, false, not, if◌then◌else◌, filter, List, [], Some, None};
ghost use Rattle.ec_base.specs.declared.ids.Hold.{Hold as Mode};
ghost use Rattle.ec_base.specs.declared.ids.Hold.TheVariants.{Read, Write};
ghost use Rattle.ec_base.specs.Holds.{clash};
ghost use Rattle.ec_volume.specs.Update.{member};
ghost use Rattle.ec_sessions.specs.OfTokens.Tokens.{Tokens, Holder, token, holders, conflicts, granted, lowered, fits_back};
ghost use Rattle.ec_sessions.specs.OfTokens.SoundTokens.{IsSound};
ghost use Rattle.ec_protocol.specs.Server.{with_ids};
ghost use Rattle.ec_machine_laws.specs.Holding.{IsWriter, AreReaders, left_at, AreOwn};

/// A grant, or a token given back, leaves the holders of other objects.
pub fn changes_stay_with_their_object()
    ensures granted { (ts : Tokens) (s x : ℕ) (h : Mode) (n y : ℕ) → IsSound ts → (y == x) ≡ false → holders (granted s x h n ts) y ≡ holders ts y }
    ensures lowered { (ts : Tokens) (s x : ℕ) (to : Mode) (n y : ℕ) → IsSound ts → (y == x) ≡ false → holders (lowered s x to n ts) y ≡ holders ts y }
{}

/// The same of the holders of the object, but for the session whose token changes.
pub fn changes_stay_with_their_session()
    ensures granted { (ts : Tokens) (s x : ℕ) (h : Mode) (n y : ℕ) → filter (λ g. not (g.0 == s)) (holders (granted s x h n ts) y) ≡ filter (λ g. not (g.0 == s)) (holders ts y) }
    ensures lowered { (ts : Tokens) (s x : ℕ) (to : Mode) (n y : ℕ) → filter (λ g. not (g.0 == s)) (holders (lowered s x to n ts) y) ≡ filter (λ g. not (g.0 == s)) (holders ts y) }
    ensures own { (ts : Tokens) (s x : ℕ) (h g : Mode) (n y : ℕ) → conflicts (granted s x h n ts) s y g ≡ conflicts ts s y g }
{}

/// A token that is given back to a mode that doesn't conflict is no conflict any more; the others
/// stay, in their order.
pub fn given_back_tokens_conflict_no_more()
    ensures { (ts : Tokens) (s t x n : ℕ) (to h : Mode) → IsSound ts → fits_back (token ts t x) n to ≡ true → clash to h ≡ false
        → conflicts (lowered t x to n ts) s x h ≡ filter (λ g. not (g.0 == t)) (conflicts ts s x h) }
{}

/// What conflicts with a reader is one token for writing; what conflicts with a writer is that, or
/// tokens for reading alone.
pub fn conflicts_are_one_writer_or_readers()
    ensures reading { (ts : Tokens) (s x : ℕ) → IsSound ts → (conflicts ts s x Read ≡ []) ⊎ IsWriter (conflicts ts s x Read) }
    ensures writing { (ts : Tokens) (s x : ℕ) → IsSound ts → AreReaders (conflicts ts s x Write) ⊎ IsWriter (conflicts ts s x Write) }
{}

/// The token of each session on each object behind a grant, behind a token given back and behind
/// ids on which no other session has a token.
pub fn other_tokens_stay()
    ensures granted { (ts : Tokens) (s x : ℕ) (h : Mode) (n t y : ℕ) → token (granted s x h n ts) t y ≡ if (t == s) && (y == x) then Some (record { hold = h; number = n }) else token ts t y }
    ensures lowered { (ts : Tokens) (s x : ℕ) (to : Mode) (n t y : ℕ) → token (lowered s x to n ts) t y ≡ if (t == s) && (y == x) then left_at to n else token ts t y }
    ensures ids { (ts : Tokens) (s n : ℕ) (xs : List ℕ) → IsSound ts → AreOwn s xs ts → (t y : ℕ) → token (with_ids s n xs ts) t y ≡ if (t == s) && member y xs then Some (record { hold = Write; number = n }) else token ts t y }
    ensures sound { (ts : Tokens) (s n : ℕ) (xs : List ℕ) → IsSound ts → AreOwn s xs ts → IsSound (with_ids s n xs ts) }
{}

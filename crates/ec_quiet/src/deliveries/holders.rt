// Holders that were recalled, one by one.
ghost use Rattle.std.specs.Prelude.{◌≡◌, ◌==◌, ℕ, true, false, List, ◌∷◌, Some};
ghost use Rattle.ec_base.specs.Holds.{clash};
ghost use Rattle.ec_base.specs.Tables.{Table};
ghost use Rattle.ec_base.specs.declared.ids.Hold.{Hold as Mode};
ghost use Rattle.ec_sessions.specs.declared.slot.Slot.{Slot};
ghost use Rattle.ec_sessions.specs.OfTokens.Tokens.{Tokens, Holder, token, conflicts, fits_back, lowered};
ghost use Rattle.ec_sessions.specs.OfTokens.SoundTokens.{IsSound};
ghost use Rattle.ec_sessions.specs.declared.tokens.token.Token.{Token};
ghost use Rattle.ec_sessions.specs.OfRecall.Due.{recall_to};
ghost use Rattle.ec_protocol.specs.Server.{serving};
ghost use Rattle.ec_protocol.specs.declared.clerk.Clerk.{Clerk};
ghost use Rattle.ec_protocol.specs.declared.server.Server.{Server};
ghost use Rattle.ec_quiet.specs.Facts.{IsOrderly, session_clerk};
ghost use Rattle.ec_machine_laws.specs.Serving.{IsAtWork};

/// The first holder that conflicts with a want is of another session, has its token by its number,
/// and may give it back to the mode that it's recalled to; then just the others conflict.
pub fn recalled_holders_give_back()
    ensures token { (ts : Tokens) (s x : ℕ) (h : Mode) (g : Holder) (gs : List Holder) → IsSound ts → conflicts ts s x h ≡ g ∷ gs → token ts g.0 x ≡ Some (record { hold = g.1; number = g.2 }) }
    ensures other { (ts : Tokens) (s x : ℕ) (h : Mode) (g : Holder) (gs : List Holder) → conflicts ts s x h ≡ g ∷ gs → (g.0 == s) ≡ false }
    ensures clashes { (ts : Tokens) (s x : ℕ) (h : Mode) (g : Holder) (gs : List Holder) → conflicts ts s x h ≡ g ∷ gs → clash g.1 h ≡ true }
    ensures fits { (ts : Tokens) (s x : ℕ) (h : Mode) (g : Holder) (gs : List Holder) → IsSound ts → conflicts ts s x h ≡ g ∷ gs → fits_back (token ts g.0 x) g.2 (recall_to h) ≡ true }
    ensures left { (ts : Tokens) (s x : ℕ) (h : Mode) (g : Holder) (gs : List Holder) → IsSound ts → conflicts ts s x h ≡ g ∷ gs → conflicts (lowered g.0 x (recall_to h) g.2 ts) s x h ≡ gs }
{}

/// A session that has a token is at work: its clerk's slot is open with it, and it has claimed.
pub fn holders_are_at_work()
    ensures { (v : Server) (clerks : Table Clerk) (s x : ℕ) (t : Token) → IsOrderly v clerks → token v.tokens s x ≡ Some t → (sl : Slot) × IsAtWork (session_clerk v s) s v.durable.epoch sl (serving v) }
{}

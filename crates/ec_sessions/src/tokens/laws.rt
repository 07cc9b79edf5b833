// What holds of all sound tables of tokens.
ghost use Rattle.std.specs.Prelude.{◌≡◌, ℕ};
ghost use Rattle.ec_sessions.specs.OfTokens.Tokens as tokens;
ghost use Rattle.ec_sessions.specs.OfTokens.SoundTokens as sound_tokens;

/// The list of the sessions' tokens is the map: where each session has the same token on each object in two sound lists, they
/// are one.
pub fn one_list()
    ensures { (ts us : tokens.Tokens) → sound_tokens.IsSound ts → sound_tokens.IsSound us → ((s x : ℕ) → tokens.token ts s x ≡ tokens.token us s x) → ts ≡ us }
{}

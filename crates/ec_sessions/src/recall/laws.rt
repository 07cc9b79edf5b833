// What holds of each round of `due`.
ghost use Rattle.std.specs.Prelude.{◌≡◌, ◌+◌, ◌<◌, true, false, [], List, length, filter};
ghost use Rattle.std.specs.List.{list_any};
ghost use Rattle.ec_sessions.specs.OfTokens.Tokens.{Tokens};
ghost use Rattle.ec_sessions.specs.OfTokens.SoundTokens.{IsSound};
ghost use Rattle.ec_sessions.specs.declared.recall.want.Want.{Want};
ghost use Rattle.ec_sessions.specs.OfRecall.Due.{actions, wants_after};
ghost use Rattle.ec_sessions.specs.OfRecall.Rounds.{is_grant, GrantsAreClear, GrantsGoIn};
ghost use Rattle.ec_sessions.specs.OfRecall.HeldWants.{NoneFree};

/// Each grant conflicts with no recorded token and with no grant before it. So it conflicts with no token of the table in which
/// the grants before it are recorded.
pub fn grants_are_clear()
    ensures apart { (ts : Tokens) (ws : List Want) → GrantsAreClear ts [] (actions ts ws) }
    ensures recorded { (ts : Tokens) (ws : List Want) → IsSound ts → NoneFree ws → GrantsGoIn ts (actions ts ws) }
{}

/// Each grant takes one want off the list, and nothing else does.
pub fn grants_shorten()
    ensures count { (ts : Tokens) (ws : List Want) → length (wants_after ts ws) + length (filter is_grant (actions ts ws)) ≡ length ws }
    ensures shorter { (ts : Tokens) (ws : List Want) → list_any is_grant (actions ts ws) ≡ true → length (wants_after ts ws) < length ws }
{}

/// After a round without a grant nothing is due at the same tokens, and asking again changes nothing.
pub fn no_grant_settles()
    ensures actions { (ts : Tokens) (ws : List Want) → list_any is_grant (actions ts ws) ≡ false → actions ts (wants_after ts ws) ≡ [] }
    ensures wants { (ts : Tokens) (ws : List Want) → list_any is_grant (actions ts ws) ≡ false → wants_after ts (wants_after ts ws) ≡ wants_after ts ws }
{}

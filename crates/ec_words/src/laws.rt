// What holds of all words that spell calls.
ghost use Rattle.std.specs.Prelude.{◌≡◌, List, T};
ghost use Rattle.ec_plain.specs.declared.call.Call.{Call};
ghost use Rattle.ec_plain.specs.BoundedCalls.{is_bounded};
ghost use Rattle.ec_words.specs.Rows.{Word};
ghost use Rattle.ec_words.specs.Calls.{SpellsCall};

/// Words spell at most one call, and it is within the bounds of calls.
pub fn spelled_calls()
    ensures one { (ws : List Word) (a b : Call) → SpellsCall ws a → SpellsCall ws b → a ≡ b }
    ensures bounded { (ws : List Word) (a : Call) → SpellsCall ws a → T (is_bounded a) }
{}

// What a want gets, and where the rounds of serving end.
ghost use Rattle.std.specs.Prelude.{◌≡◌, Bool, true, false, filter, List, [], ◌∷◌, map};
ghost use Rattle.ec_sessions.specs.OfTokens.Tokens.{Tokens, Holder, conflicts, is_clear};
ghost use Rattle.ec_sessions.specs.OfRecall.Due.{actions, wants_after, news, recall_of, told_of};
ghost use Rattle.ec_sessions.specs.declared.recall.want.Action.TheVariants.{Grant};
ghost use Rattle.ec_sessions.specs.declared.recall.want.Want.{Want};
ghost use Rattle.ec_protocol.specs.Server.{Serving, serve, all_claimed, grant, act_all};
ghost use Rattle.ec_machine_laws.specs.Serving.{with_wants, telling, recalls_of};

/// A want that waits alone is granted where no other session's token conflicts with it. Else the
/// conflicting holders that weren't told are recalled, and it stays, with all of them told.
pub fn one_want_is_granted_or_recalled()
    ensures granted { (ts : Tokens) (w : Want) → is_clear ts w.session w.obj w.hold ≡ true → actions ts (w ∷ []) ≡ Grant w.session w.obj w.hold ∷ [] }
    ensures left { (ts : Tokens) (w : Want) → is_clear ts w.session w.obj w.hold ≡ true → wants_after ts (w ∷ []) ≡ [] }
    ensures recalled { (ts : Tokens) (w : Want) → is_clear ts w.session w.obj w.hold ≡ false → actions ts (w ∷ []) ≡ map (recall_of w) (news ts w) }
    ensures stays { (ts : Tokens) (w : Want) → is_clear ts w.session w.obj w.hold ≡ false → wants_after ts (w ∷ []) ≡ telling (conflicts ts w.session w.obj w.hold) w ∷ [] }
{}

/// Where nobody was told, all that conflict are news; where each that conflicts was told, nobody is.
pub fn told_holders_are_no_news()
    ensures all { (ts : Tokens) (w : Want) → w.told ≡ [] → news ts w ≡ conflicts ts w.session w.obj w.hold }
    ensures none { (ts : Tokens) (w : Want) (gs : List Holder) (p : Holder → Bool) → w.told ≡ map told_of gs → conflicts ts w.session w.obj w.hold ≡ filter p gs → news ts w ≡ [] }
{}

/// Serving changes nothing where no want waits, where nothing is due, or where an open session is
/// still to claim.
pub fn serving_changes_nothing_where_nothing_is_due()
    ensures no_want { (t : Serving) → t.server.recalls ≡ [] → serve t ≡ t }
    ensures none_due { (t : Serving) → actions t.server.tokens t.server.recalls ≡ [] → wants_after t.server.tokens t.server.recalls ≡ t.server.recalls → serve t ≡ t }
    ensures unclaimed { (t : Serving) → all_claimed t.server ≡ false → serve t ≡ t }
{}

/// Serving one want grants it and ends, or recalls those that conflict and weren't told.
pub fn one_want_is_served()
    ensures granted { (t : Serving) (w : Want) → all_claimed t.server ≡ true → t.server.recalls ≡ w ∷ [] → is_clear t.server.tokens w.session w.obj w.hold ≡ true
        → serve t ≡ grant w.session w.obj w.hold (with_wants [] t) }
    ensures recalled { (t : Serving) (w : Want) → all_claimed t.server ≡ true → t.server.recalls ≡ w ∷ [] → is_clear t.server.tokens w.session w.obj w.hold ≡ false
        → serve t ≡ act_all (map (recall_of w) (news t.server.tokens w)) (with_wants (telling (conflicts t.server.tokens w.session w.obj w.hold) w ∷ []) t) }
{}

/// The rounds end: behind them nothing is due, and serving again would change nothing.
pub fn serving_ends_with_nothing_due()
    ensures due { (t : Serving) → all_claimed t.server ≡ true → actions (serve t).server.tokens (serve t).server.recalls ≡ [] }
    ensures again { (t : Serving) → all_claimed t.server ≡ true → serve (serve t) ≡ serve t }
{}

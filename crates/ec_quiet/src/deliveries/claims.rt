// A claim that is delivered.
ghost use Rattle.std.specs.Prelude.{◌≡◌, ◌≤◌, ◌+◌, ℕ, [], ◌∷◌, Option};
ghost use Rattle.ec_base.specs.declared.ids.Hold.{Hold as Mode};
ghost use Rattle.ec_wire.specs.declared.msg.Msg.TheVariants.{Claim};
ghost use Rattle.ec_quiet.specs.Measure.{measure};
ghost use Rattle.ec_quiet.specs.Phases.{InPhase, Phase, Claims};
ghost use Rattle.ec_quiet.specs.Scenes.{Mail, Scene, delivered};
ghost use Rattle.ec_quiet.specs.Works.{Work};

/// The claim of a session that was just opened changes nothing: the line is done, or its want is
/// next; and less is left by a delivery.
pub fn claims_are_delivered()
    ensures { (j : Work) (sc : Scene) (o : Option (ℕ × Mode)) (rest : Mail) → InPhase j sc (Claims o) → sc.mail ≡ (j.clerk, Claim j.session sc.server.durable.epoch []) ∷ rest
        → (p : Phase) × InPhase j (delivered j.clerk (Claim j.session sc.server.durable.epoch []) rest sc) p
        × (measure j (delivered j.clerk (Claim j.session sc.server.durable.epoch []) rest sc) p + 32 ≤ measure j sc (Claims o)) }
{}

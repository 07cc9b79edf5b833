// A want that is delivered.
ghost use Rattle.std.specs.Prelude.{◌≡◌, ◌≤◌, ◌+◌, ℕ, false, ◌∷◌};
ghost use Rattle.ec_base.specs.declared.ids.Hold.{Hold as Mode};
ghost use Rattle.ec_wire.specs.declared.msg.Msg.TheVariants.{Want};
ghost use Rattle.ec_protocol.specs.Server.{serving, is_last_number};
ghost use Rattle.ec_quiet.specs.Measure.{measure};
ghost use Rattle.ec_quiet.specs.Phases.{InPhase, Phase, Wants};
ghost use Rattle.ec_quiet.specs.Scenes.{Mail, Scene, delivered};
ghost use Rattle.ec_quiet.specs.Works.{Work};

/// A want that the server takes is granted, or noted while all that conflict are recalled; and less
/// is left by at least one delivery.
pub fn wants_are_delivered()
    ensures { (j : Work) (sc : Scene) (x : ℕ) (h : Mode) (n : ℕ) (rest : Mail) → InPhase j sc (Wants x h n) → is_last_number (serving sc.server) ≡ false
        → sc.mail ≡ (j.clerk, Want j.session sc.server.durable.epoch x h n) ∷ rest
        → (p : Phase) × InPhase j (delivered j.clerk (Want j.session sc.server.durable.epoch x h n) rest sc) p
        × (measure j (delivered j.clerk (Want j.session sc.server.durable.epoch x h n) rest sc) p + 32 ≤ measure j sc (Wants x h n)) }
{}

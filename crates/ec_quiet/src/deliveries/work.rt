// The line's clerk, and the messages under way.
ghost use Rattle.std.specs.Prelude.{◌≡◌, ℕ, T, true, false, List, ◌∷◌, ◌++◌};
ghost use Rattle.ec_base.specs.declared.ids.Hold.{Hold as Mode};
ghost use Rattle.ec_volume.specs.Update.{member};
ghost use Rattle.ec_sessions.specs.declared.slot.Slot.{Slot};
ghost use Rattle.ec_wire.specs.declared.msg.Msg.{Msg};
ghost use Rattle.ec_protocol.specs.declared.clerk.Clerk.{Clerk};
ghost use Rattle.ec_protocol.specs.declared.server.Server.{Server};
ghost use Rattle.ec_quiet.specs.Phases.{IsWorking, IsWanting, backs, main, is_back};
ghost use Rattle.ec_quiet.specs.Scenes.{Mail, Scene};
ghost use Rattle.ec_quiet.specs.Works.{Work};
ghost use Rattle.ec_quiet.specs.OfDeliveries.Orderly.{IsLikeBut, HasMoved, KeepsBacks, are_no_backs};

/// The line's clerk stays at work, and goes on wanting its token, where the server keeps its slot
/// and its tokens, but perhaps on some objects, and what it gives back stays under way; at work also
/// where its slot changes and has the same open session.
pub fn clerks_at_work_stay_at_work()
    ensures moved { (xs ys : List ℕ) (j : Work) (sc : Scene) (w : Server) (mail : Mail) (sl sm : Slot) (k : Clerk) → ((x : ℕ) → T (member x xs) → T (member x ys)) → HasMoved ys sc.server w j.clerk j.session sl sm → KeepsBacks j sc.mail mail
        → IsWorking xs j sc sl k → IsWorking ys j (record sc { server = w; mail = mail }) sm k }
    ensures working { (xs ys : List ℕ) (j : Work) (sc : Scene) (w : Server) (mail : Mail) (sl : Slot) (k : Clerk) → ((x : ℕ) → T (member x xs) → T (member x ys)) → IsLikeBut ys sc.server w j.clerk j.session → KeepsBacks j sc.mail mail
        → IsWorking xs j sc sl k → IsWorking ys j (record sc { server = w; mail = mail }) sl k }
    ensures wanting { (xs ys : List ℕ) (j : Work) (sc : Scene) (w : Server) (mail : Mail) (x : ℕ) (h : Mode) (n : ℕ) → ((y : ℕ) → T (member y xs) → T (member y ys)) → IsLikeBut ys sc.server w j.clerk j.session → KeepsBacks j sc.mail mail
        → IsWanting xs j sc x h n → IsWanting ys j (record sc { server = w; mail = mail }) x h n }
{}

/// Where a message leaves the front that gives no token back, and others come to the end that give
/// none, the tokens under way to the server are the same; all others stand in their order.
pub fn mail_goes_on()
    ensures backs { (j : Work) (m : ℕ × Msg) (ms ns : Mail) → is_back j m ≡ false → are_no_backs ns ≡ true → KeepsBacks j (m ∷ ms) (ms ++ ns) }
    ensures main { (j : Work) (ms ns : Mail) → are_no_backs ns ≡ true → main j (ms ++ ns) ≡ main j ms ++ ns }
    ensures front { (j : Work) (m : ℕ × Msg) (ms : Mail) → is_back j m ≡ false → main j (m ∷ ms) ≡ m ∷ main j ms }
{}

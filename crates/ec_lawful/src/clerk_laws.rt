//! Laws on what a clerk answers at once, wants and gives back. Each function has an empty body, and its
//! contract is a law.
ghost use Rattle.std.specs.Prelude.{ℕ};
ghost use Rattle.ec_history.specs.History.{Each};
ghost use Rattle.ec_plain.specs.declared.call.Call.{Call};
ghost use Rattle.ec_wire.specs.declared.msg.Msg.{Msg};
ghost use Rattle.ec_protocol.specs.Clerk as clerk;
ghost use Rattle.ec_protocol.specs.declared.clerk.Clerk.{Clerk};
ghost use Rattle.ec_lawful.specs.OfClerkLaws.Prompt.{HeldCallsArePrompt};
ghost use Rattle.ec_lawful.specs.OfClerkLaws.Tokens.{TokensStay, TokensStayBehind};
ghost use Rattle.ec_lawful.specs.OfClerkLaws.Wants.{WantsRightly};

/// A call on held objects is answered in the step that begins it, also beside calls that wait, recalls that
/// aren't ready and pushes, unless as many operations are undurable as may be.
pub fn held_calls_are_prompt()
    ensures { HeldCallsArePrompt }
{}

/// Each want that a step sends is of the clerk's session, and of a mode that it doesn't hold behind that
/// step.
pub fn wants_are_of_what_is_not_held()
    ensures takes { (m : Msg) (k : Clerk) → Each (WantsRightly (clerk.take m k).clerk) (clerk.take m k).outs }
    ensures begins { (cl : Call) (k : Clerk) → Each (WantsRightly (clerk.begin cl k).clerk) (clerk.begin cl k).outs }
    ensures pushes { (n : ℕ) (k : Clerk) → Each (WantsRightly (clerk.push n k).clerk) (clerk.push n k).outs }
    ensures resends { (k : Clerk) → Each (WantsRightly (clerk.resend k).clerk) (clerk.resend k).outs }
{}

/// A token leaves, or falls, only where a step gives it back or takes another grant of it, or with its
/// session.
pub fn tokens_stay()
    ensures takes { (m : Msg) (k : Clerk) → TokensStayBehind m k (clerk.take m k) }
    ensures begins { (cl : Call) (k : Clerk) → TokensStay k (clerk.begin cl k) }
    ensures pushes { (n : ℕ) (k : Clerk) → TokensStay k (clerk.push n k) }
    ensures resends { (k : Clerk) → TokensStay k (clerk.resend k) }
{}

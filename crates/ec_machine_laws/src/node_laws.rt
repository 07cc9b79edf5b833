//! Laws on what a server and a clerk send and answer, told by messages. Each function has an empty body, and
//! its contract is a law.
ghost use Rattle.std.specs.Prelude.{ℕ, None};
ghost use Rattle.ec_history.specs.History.{Each};
ghost use Rattle.ec_plain.specs.declared.call.Call.{Call};
ghost use Rattle.ec_wire.specs.declared.msg.Msg.{Msg};
ghost use Rattle.ec_durable.specs.declared.state.Durable.{Durable};
ghost use Rattle.ec_protocol.specs.Clerk as clerk;
ghost use Rattle.ec_protocol.specs.Server as server;
ghost use Rattle.ec_protocol.specs.declared.clerk.Clerk.{Clerk};
ghost use Rattle.ec_protocol.specs.declared.server.Server.{Server};
ghost use Rattle.ec_machine_laws.specs.OfNodeLaws.Claims.{ClaimsComeFirst};
ghost use Rattle.ec_machine_laws.specs.OfNodeLaws.Rooms.{AnswersTellCounts, RefusalsTellCounts, RefusesNone, PassesOn};

/// A server that starts serves no noted want until each session that is open on its disk has claimed or was
/// ended, whatever messages it takes, from anybody.
pub fn claims_come_before_service()
    ensures { ClaimsComeFirst }
{}

/// A server refuses room only with the counts of its state, which are within the number of objects. An end
/// and a start refuse none.
pub fn refusals_tell_counts()
    ensures takes { RefusalsTellCounts }
    ensures ends { (c : ℕ) (v : Server) → Each (λ (s : ℕ × Msg). RefusesNone s.1) (server.end c v).sent }
    ensures starts { (d : Durable) → Each (λ (s : ℕ × Msg). RefusesNone s.1) (server.start d).sent }
{}

/// A clerk answers that there is no room only with the counts of the refusal that it takes, and refuses none
/// itself.
pub fn clerks_pass_refusals_on()
    ensures takes { AnswersTellCounts }
    ensures begins { (cl : Call) (k : Clerk) → Each (PassesOn None) (clerk.begin cl k).outs }
    ensures pushes { (n : ℕ) (k : Clerk) → Each (PassesOn None) (clerk.push n k).outs }
    ensures resends { (k : Clerk) → Each (PassesOn None) (clerk.resend k).outs }
    ensures starts { (c : ℕ) (boot : ℕ) → Each (PassesOn None) (clerk.start c boot).outs }
{}

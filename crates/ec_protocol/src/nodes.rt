// A server and a clerk on small cases.
ghost use Rattle.std.specs.Prelude.{◌≡◌, true, false, [], ◌∷◌, None, Some};
ghost use Rattle.ec_base.specs.declared.ids.Hold.TheVariants.{Read, Write};
ghost use Rattle.ec_volume.specs.declared.update.Update.TheVariants as update;
ghost use Rattle.ec_plain.specs.declared.call.Call.TheVariants as call;
ghost use Rattle.ec_log.specs.declared.state.Asked.TheVariants.{All};
ghost use Rattle.ec_durable.specs.declared.record.Record.TheVariants as record_of;
ghost use Rattle.ec_wire.specs.declared.msg.Msg.TheVariants as msg;
ghost use Rattle.ec_protocol.specs.declared.clerk.Flushed.TheVariants as flushed;
ghost use Rattle.ec_protocol.specs.declared.clerk.Out.TheVariants as out;
ghost use Rattle.ec_protocol.specs.Server as server;
ghost use Rattle.ec_protocol.specs.Clerk as clerk;
ghost use Rattle.ec_protocol.specs.Flushes as flushes;
ghost use Rattle.ec_protocol.specs.Parts.{first_age, started, with_session, with_two, said, fresh, outs, without_recall, under_recall};

/// A session opens and ends, each with a record.
pub fn opens_and_ends()
    ensures greets { said (server.take 0 (msg.Hello 0 first_age) started) ≡ ((0, msg.Opened first_age 1 1) ∷ [], Some (record_of.Open 0 first_age 1)) }
    ensures ends { said (server.end 0 with_session) ≡ ((0, msg.Ended 1 0 0) ∷ [], Some (record_of.End 0 1)) }
    ensures once { said (server.end 0 (server.end 0 with_session).server) ≡ ([], None) }
{}

/// A batch without tokens ends its session, and so does a claim that clashes with another one.
pub fn ends_bad_sessions()
    ensures no_token { said (server.take 0 (msg.Flush 1 1 1 ((1, update.Stamp 1 7) ∷ [])) with_session) ≡ ((0, msg.Ended 1 0 0) ∷ [], Some (record_of.End 0 1)) }
    ensures clash { said (server.take 1 (msg.Claim 2 2 ((1, Write) ∷ [])) (server.take 0 (msg.Claim 1 2 ((1, Write) ∷ [])) with_two).server) ≡ ((1, msg.Ended 2 0 0) ∷ [], Some (record_of.End 1 2)) }
{}

/// No want goes out for an object under recall, and none without a session.
pub fn wants_nothing_in_vain()
    ensures wants { clerk.may_want 5 Read without_recall ≡ true }
    ensures under_recall { clerk.may_want 5 Read under_recall ≡ false }
    ensures no_session { clerk.may_want 5 Read fresh ≡ false }
{}

/// A clerk without a session says hello, and nothing else.
pub fn waits_for_a_session()
    ensures starts { outs (clerk.start 0 1) ≡ out.Send (msg.Hello 0 first_age) ∷ [] }
    ensures begins { outs (clerk.begin (call.Stat []) fresh) ≡ [] }
    ensures resends { outs (clerk.resend fresh) ≡ out.Send (msg.Hello 0 first_age) ∷ [] }
    ensures issued_none { clerk.has_issued 1 fresh ≡ false }
    ensures flushes { flushes.flush_answer All fresh ≡ flushed.Settled }
    ensures leaves { outs (clerk.bye fresh) ≡ [] }
    ensures floor { clerk.floor fresh ≡ 1 }
{}

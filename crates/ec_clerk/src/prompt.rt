// What a clerk needs no one else for.
ghost use Rattle.std.specs.Prelude.{◌≡◌, ◌+◌, true, [], ◌∷◌};
ghost use Rattle.ec_history.specs.declared.entry.Answer.TheVariants as answer;
ghost use Rattle.ec_plain.specs.declared.call.Call.{Call as Asking};
ghost use Rattle.ec_plain.specs.declared.call.Outcome.{Outcome as Comes};
ghost use Rattle.ec_cache.specs.declared.resolve.verdict.Verdict.TheVariants as verdict;
ghost use Rattle.ec_protocol.specs.declared.clerk.Clerk.{Clerk as State};
ghost use Rattle.ec_protocol.specs.declared.clerk.Out.TheVariants as out;
ghost use Rattle.ec_protocol.specs.Clerk as clerk;
ghost use Rattle.ec_clerk.specs.Prompt.{IsIdle, may_end, op_of};

/// A law: where nothing else waits, a call on held objects is answered in the step that begins it,
/// which sends nothing, unless as many operations are undurable as may be.
pub fn held_call_is_prompt()
    ensures { (k : State) (c : Asking) (o : Comes) → IsIdle k → clerk.verdict c k ≡ verdict.Done o → may_end c o o.update k ≡ true → (clerk.begin c k).outs ≡ out.Answer (k.calls + 1) (answer.Reply o.reply) (op_of o.update k) ∷ [] }
{}

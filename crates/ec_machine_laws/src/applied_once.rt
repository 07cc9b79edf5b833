//! What a server does over any list of messages and ends, from anybody. Each function has an empty body, and its contract is a law.
ghost use Rattle.std.specs.Prelude.{◌≡◌, ◌≤◌, ℕ, T, List, Ok};
ghost use Rattle.ec_wire.specs.Messages.{is_sound};
ghost use Rattle.ec_wire.specs.declared.msg.Msg.{Msg};
ghost use Rattle.ec_durable.specs.Durable.{steps};
ghost use Rattle.ec_durable.specs.WellFormed.{IsInOrder, WellFormed};
ghost use Rattle.ec_durable.specs.declared.record.Record.{Record};
ghost use Rattle.ec_durable.specs.declared.state.Durable.{Durable};
ghost use Rattle.ec_protocol.specs.Server.{take, end, start, new_server};
ghost use Rattle.ec_protocol.specs.declared.server.Server.{Server};
ghost use Rattle.ec_machine_laws.specs.OfAppliedOnce.Once.{applied, NoneAgain, AllPast};
ghost use Rattle.ec_machine_laws.specs.OfAppliedOnce.Safe.{Act, acted};
ghost use Rattle.ec_machine_laws.specs.OfAppliedOnce.SafeServers.{AreSound, committed, IsSafe, IsSafeBehind};

/// Records that step one after the other apply each batch of a session at most once. What was applied is past, and what is past isn't
/// applied again: across ends, starts and crashes too, since the durable state alone tells it.
pub fn batches_are_applied_once()
    ensures once { (rs : List Record) (d e : Durable) → IsInOrder d → steps rs d ≡ Ok e → (s b : ℕ) → applied s b rs ≤ 1 }
    ensures again { (rs : List Record) (d e : Durable) → steps rs d ≡ Ok e → NoneAgain rs d e }
    ensures past { (rs : List Record) (d e : Durable) → IsInOrder d → steps rs d ≡ Ok e → AllPast rs e }
{}

/// A server stays safe, whatever sound message it takes, from anybody, and whosever session is ended. A start is safe over a well-formed volume.
pub fn servers_stay_safe()
    ensures take { (c : ℕ) (m : Msg) (v : Server) → T (is_sound m) → IsSafe v → IsSafe (take c m v).server }
    ensures end { (c : ℕ) (v : Server) → IsSafe v → IsSafe (end c v).server }
    ensures start { (d : Durable) → WellFormed d → IsSafe (start d).server }
{}

/// Over any list of sound messages, ends and starts no two tokens conflict, the volume is well formed, and each batch of a session is applied
/// at most once. A server before its start, over a well-formed volume, is safe.
pub fn lists_of_steps_are_safe()
    ensures acts { (acts : List Act) (v : Server) → IsSafe v → AreSound acts → IsSafeBehind v.durable (committed acts v) (acted acts v) }
    ensures new { (d : Durable) → WellFormed d → IsSafe (new_server d) }
{}

// The messages that came out of one step are sent.
ghost use Rattle.std.specs.Prelude.{◌≡◌, ◌+◌, ◌≤◌, length, map, take, if◌then◌else◌};
ghost use Rattle.ec_link.specs.declared.link.Sent.TheVariants as sent;
ghost use Rattle.ec_link.specs.Links.{added};
ghost use Rattle.ec_link.specs.LinkAnswers.{carried, failed};
ghost use Rattle.ec_outs.specs.Outs.{encoded, sends};
ghost use Rattle.ec_outs.specs.Patience.{is_again as is_again_in};

use crate::patience::is_again;
use ec_link::{Link, Sent};
use ec_protocol::Out;
use ec_wire::{Msg, encode};
use std::alloc::Global;
use std::sync::Wait;
use std::time::Clock;

// Sends one message, which may rest for so many milliseconds. The clerk makes no message that isn't sound.
fn send_one<L: Link, R: Wait + Clock>(
    rt: &R,
    alloc: Global,
    link: &mut L,
    msg: &Msg,
    rest: u64,
) -> Sent
    ensures sent { L.got link.new ≡ added (L.got link.old) (carried result (encoded msg.now)) }
    ensures given { L.given link.new ≡ L.given link.old }
    ensures counts { failed result + (L.faults link.old + L.closes link.old) ≤ L.faults link.new + L.closes link.new }
{
    if !msg.sound() {
        return Sent::NoMemory;
    }
    match encode(alloc, msg) {
        Ok(body) if rest > 0 => link.send_late(rt, &body, rest),
        Ok(body) => link.send(rt, &body),
        Err(_) => Sent::NoMemory,
    }
}

/// Sends the messages in order up to the first that fails, and says how many were sent.
pub fn send_all<L: Link, R: Wait + Clock>(
    rt: &R,
    alloc: Global,
    link: &mut L,
    outs: &[Out],
) -> (u64, Sent)
    ensures sent { L.got link.new ≡ added (L.got link.old) (map encoded (take result.0 (sends outs.now))) }
    ensures whole { result.1 ≡ sent.Done → result.0 ≡ length (sends outs.now) }
    ensures given { L.given link.new ≡ L.given link.old }
    ensures counts { failed result.1 + (L.faults link.old + L.closes link.old) ≤ L.faults link.new + L.closes link.new }
{
    send_resting(rt, alloc, link, outs, 0)
}

/// The same, where a want of what went back in the same step may rest for so many milliseconds.
pub fn send_resting<L: Link, R: Wait + Clock>(
    rt: &R,
    alloc: Global,
    link: &mut L,
    outs: &[Out],
    rest: u64,
) -> (u64, Sent)
    ensures sent { L.got link.new ≡ added (L.got link.old) (map encoded (take result.0 (sends outs.now))) }
    ensures whole { result.1 ≡ sent.Done → result.0 ≡ length (sends outs.now) }
    ensures given { L.given link.new ≡ L.given link.old }
    ensures counts { failed result.1 + (L.faults link.old + L.closes link.old) ≤ L.faults link.new + L.closes link.new }
{
    let mut sent = 0;
    for out in outs {
        if let Out::Send(msg) = out {
            let rest = rest_of(msg, outs, rest);
            match send_one(rt, alloc, link, msg, rest) {
                Sent::Done => sent += 1,
                Sent::Failed => return (sent, Sent::Failed),
                Sent::NoMemory => return (sent, Sent::NoMemory),
            }
        }
    }
    (sent, Sent::Done)
}

// So many milliseconds this message of the step rests, where such a want is to rest for so many.
fn rest_of(msg: &Msg, outs: &[Out], rest: u64) -> u64
    ensures { result ≡ (if is_again_in (sends outs.now) msg.now then rest else 0) }
{
    if rest > 0 && is_again(msg, outs) {
        rest
    } else {
        0
    }
}

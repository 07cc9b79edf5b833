// Transcript lines.
ghost use Rattle.std.specs.Prelude.{◌≡◌, ◌++◌, IfOk, OnOk, codes};
ghost use Rattle.std.specs.Fmt.{decimal};
ghost use Rattle.ec_words.specs.OfText.Pieces.{clerk_text, numbers_text};
ghost use Rattle.ec_words.specs.OfText.Calls.{call_text};
ghost use Rattle.ec_words.specs.OfText.Answers.{answered_text};
ghost use Rattle.ec_words.specs.OfText.Lines.{limit_text, counter_text, asked_text, shown_line, shown_text};

use crate::text::answer::push_answered;
use crate::text::asked::push_call;
use crate::text::pieces::{push_clerk, push_number, push_numbers, push_text};
use ec_base::{ClerkId, Counter, NoMemory, OpNo};
use ec_history::{Answer, LimitName, Shown};
use ec_plain::Call;
use std::alloc::Global;

/// The text of a transcript line, with its end.
pub fn print(alloc: Global, shown: &Shown) -> Result<Vec<u8>, NoMemory>
    ensures { IfOk result (λ text. text.items ≡ shown_text shown.now) }
{
    let mut out = Vec::new(alloc);
    push_line(&mut out, shown)?;
    push_text(&mut out, b"\n")?;
    Ok(out)
}

/// The words of a call, as a transcript line shows them.
pub fn print_call(alloc: Global, call: &Call) -> Result<Vec<u8>, NoMemory>
    ensures { IfOk result (λ text. text.items ≡ call_text call.now) }
{
    let mut out = Vec::new(alloc);
    push_call(&mut out, call)?;
    Ok(out)
}

/// The words of an answer, as a transcript line shows them. An answer with an operation names it.
pub fn print_answer(alloc: Global, answer: &Answer, op: Option<OpNo>) -> Result<Vec<u8>, NoMemory>
    ensures { IfOk result (λ text. text.items ≡ answered_text answer.now op) }
{
    let mut out = Vec::new(alloc);
    push_answered(&mut out, answer, op)?;
    Ok(out)
}

fn push_line(out: &mut Vec<u8>, shown: &Shown) -> Result<(), NoMemory>
    ensures { OnOk result (out.new.items ≡ out.old.items ++ shown_line shown.now) }
{
    match shown {
        Shown::Waits(line, clerk, call) => {
            push_asked(out, *line, *clerk, call)?;
            push_text(out, b" -> waits")
        }
        Shown::Answered(line, clerk, call, answer, op) => {
            push_asked(out, *line, *clerk, call)?;
            push_text(out, b" -> ")?;
            push_answered(out, answer, *op)
        }
        Shown::Durable(clerk, ops) => push_ops(out, b"durable ", *clerk, b" ", ops.as_slice()),
        Shown::Ended(clerk, ops) => push_ops(out, b"ended ", *clerk, b" lost ", ops.as_slice()),
        Shown::Unseen(clerk) => push_of(out, b"unseen ", *clerk),
        Shown::Told(clerk, ops) => push_ops(out, b"told ", *clerk, b" lost ", ops.as_slice()),
        Shown::Crashed(clerk) => push_of(out, b"crashed ", *clerk),
        Shown::Stopped => push_text(out, b"stopped"),
        Shown::Started => push_text(out, b"started"),
        Shown::Nothing => push_text(out, b"none"),
        Shown::Unsettled => push_text(out, b"unsettled"),
        Shown::Bad(line, column) => push_bad(out, *line, *column),
        Shown::DiskBad(place) => {
            push_text(out, b"disk bad ")?;
            push_number(out, *place)
        }
        Shown::Limit(name, number) => push_limit(out, *name, *number),
        Shown::Spent(counter) => {
            push_text(out, b"spent ")?;
            push_counter(out, *counter)
        }
    }
}

fn push_asked(out: &mut Vec<u8>, line: u32, clerk: ClerkId, call: &Call) -> Result<(), NoMemory>
    ensures { OnOk result (out.new.items ≡ out.old.items ++ asked_text line clerk call.now) }
{
    push_number(out, u64::from(line))?;
    push_text(out, b" ")?;
    push_clerk(out, clerk)?;
    push_text(out, b" ")?;
    push_call(out, call)
}

fn push_of(out: &mut Vec<u8>, what: &[u8], clerk: ClerkId) -> Result<(), NoMemory>
    ensures { OnOk result (out.new.items ≡ out.old.items ++ (what.now ++ clerk_text clerk)) }
{
    push_text(out, what)?;
    push_clerk(out, clerk)
}

fn push_ops(
    out: &mut Vec<u8>,
    what: &[u8],
    clerk: ClerkId,
    between: &[u8],
    ops: &[OpNo],
) -> Result<(), NoMemory>
    ensures { OnOk result (out.new.items ≡ out.old.items ++ (what.now ++ clerk_text clerk ++ between.now ++ numbers_text ops.now)) }
{
    push_of(out, what, clerk)?;
    push_text(out, between)?;
    push_numbers(out, ops)
}

fn push_bad(out: &mut Vec<u8>, line: u32, column: u32) -> Result<(), NoMemory>
    ensures { OnOk result (out.new.items ≡ out.old.items ++ (codes "bad " ++ decimal line ++ codes " col " ++ decimal column)) }
{
    push_text(out, b"bad ")?;
    push_number(out, u64::from(line))?;
    push_text(out, b" col ")?;
    push_number(out, u64::from(column))
}

fn push_limit(out: &mut Vec<u8>, name: LimitName, number: u64) -> Result<(), NoMemory>
    ensures { OnOk result (out.new.items ≡ out.old.items ++ (codes "limit " ++ limit_text name ++ codes " " ++ decimal number)) }
{
    push_text(out, b"limit ")?;
    match name {
        LimitName::Bytes => push_text(out, b"bytes")?,
        LimitName::Lines => push_text(out, b"lines")?,
        LimitName::Pending => push_text(out, b"pending")?,
    }
    push_text(out, b" ")?;
    push_number(out, number)
}

fn push_counter(out: &mut Vec<u8>, counter: Counter) -> Result<(), NoMemory>
    ensures { OnOk result (out.new.items ≡ out.old.items ++ counter_text counter) }
{
    match counter {
        Counter::Boot => push_text(out, b"Boot"),
        Counter::Session => push_text(out, b"Session"),
        Counter::Epoch => push_text(out, b"Epoch"),
        Counter::Number => push_text(out, b"Number"),
        Counter::Op => push_text(out, b"Op"),
        Counter::Batch => push_text(out, b"Batch"),
        Counter::CallNo => push_text(out, b"CallNo"),
        Counter::Ask => push_text(out, b"Ask"),
        Counter::Pass => push_text(out, b"Pass"),
        Counter::Id => push_text(out, b"Id"),
        Counter::Round => push_text(out, b"Round"),
    }
}

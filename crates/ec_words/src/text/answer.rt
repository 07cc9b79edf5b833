// Answers.
ghost use Rattle.std.specs.Prelude.{◌≡◌, ◌++◌, OnOk, codes};
ghost use Rattle.std.specs.Fmt.{decimal};
ghost use Rattle.std.specs.List.{flat_map};
ghost use Rattle.ec_words.specs.OfText.Pieces.{octal};
ghost use Rattle.ec_words.specs.OfText.Answers.{refusal_text, kind_text, data_text, next_name, owner_text, reply_text, answer_text, answered_text};

use crate::text::pieces::{push_escaped, push_number, push_numbers, push_octal, push_text};
use ec_base::{Name, NoMemory, OpNo};
use ec_history::Answer;
use ec_plain::{Refusal, Reply};
use ec_volume::Kind;

pub(crate) fn push_answered(
    out: &mut Vec<u8>,
    answer: &Answer,
    op: Option<OpNo>,
) -> Result<(), NoMemory>
    ensures { OnOk result (out.new.items ≡ out.old.items ++ answered_text answer.now op) }
{
    match op {
        Some(number) => {
            push_text(out, b"ok op ")?;
            push_number(out, number.0)
        }
        None => push_answer(out, answer),
    }
}

fn push_answer(out: &mut Vec<u8>, answer: &Answer) -> Result<(), NoMemory>
    ensures { OnOk result (out.new.items ≡ out.old.items ++ answer_text answer.now) }
{
    match answer {
        Answer::Reply(reply) => push_reply(out, reply),
        Answer::NoRoom(live, reserved) => {
            push_text(out, b"noroom ")?;
            push_number(out, u64::from(*live))?;
            push_text(out, b" ")?;
            push_number(out, u64::from(*reserved))
        }
        Answer::Lost(ops) => {
            push_text(out, b"lost ")?;
            push_numbers(out, ops.as_slice())
        }
    }
}

fn push_reply(out: &mut Vec<u8>, reply: &Reply) -> Result<(), NoMemory>
    ensures { OnOk result (out.new.items ≡ out.old.items ++ reply_text reply.now) }
{
    match reply {
        Reply::Ok => push_text(out, b"ok"),
        Reply::Data(bytes) => {
            push_text(out, b"data ")?;
            push_number(out, bytes.as_slice().len() as u64)?;
            push_data(out, bytes.as_slice())
        }
        Reply::Stat {
            kind,
            mode,
            stamp,
            owner,
            size,
        } => {
            push_properties(out, *kind, *mode, *stamp)?;
            push_text(out, b" ")?;
            push_number(out, u64::from(*size))?;
            push_owner(out, *owner)
        }
        Reply::Names(names) => {
            push_text(out, b"names ")?;
            push_number(out, names.as_slice().len() as u64)?;
            push_names(out, names.as_slice())
        }
        Reply::Refused(why) => {
            push_text(out, b"refused ")?;
            push_refusal(out, *why)
        }
    }
}

fn push_data(out: &mut Vec<u8>, bytes: &[u8]) -> Result<(), NoMemory>
    ensures { OnOk result (out.new.items ≡ out.old.items ++ data_text bytes.now) }
{
    if bytes.is_empty() {
        return Ok(());
    }
    push_text(out, b" ")?;
    push_escaped(out, bytes)
}

fn push_properties(out: &mut Vec<u8>, kind: Kind, mode: u16, stamp: u64) -> Result<(), NoMemory>
    ensures { OnOk result (out.new.items ≡ out.old.items ++ (codes "stat " ++ kind_text kind ++ codes " " ++ octal mode ++ codes " " ++ decimal stamp)) }
{
    push_text(out, b"stat ")?;
    push_kind(out, kind)?;
    push_text(out, b" ")?;
    push_octal(out, mode)?;
    push_text(out, b" ")?;
    push_number(out, stamp)
}

fn push_kind(out: &mut Vec<u8>, kind: Kind) -> Result<(), NoMemory>
    ensures { OnOk result (out.new.items ≡ out.old.items ++ kind_text kind) }
{
    match kind {
        Kind::File => push_text(out, b"file"),
        Kind::Dir => push_text(out, b"dir"),
    }
}

fn push_owner(out: &mut Vec<u8>, owner: u32) -> Result<(), NoMemory>
    ensures { OnOk result (out.new.items ≡ out.old.items ++ owner_text owner) }
{
    if owner == 0 {
        return Ok(());
    }
    push_text(out, b" owner ")?;
    push_number(out, u64::from(owner))
}

fn push_names(out: &mut Vec<u8>, names: &[Name]) -> Result<(), NoMemory>
    ensures { OnOk result (out.new.items ≡ out.old.items ++ flat_map next_name names.now) }
{
    for name in names {
        push_name(out, name.bytes())?;
    }
    Ok(())
}

fn push_name(out: &mut Vec<u8>, name: &[u8]) -> Result<(), NoMemory>
    ensures { OnOk result (out.new.items ≡ out.old.items ++ next_name name.now) }
{
    push_text(out, b" ")?;
    push_escaped(out, name)
}

fn push_refusal(out: &mut Vec<u8>, why: Refusal) -> Result<(), NoMemory>
    ensures { OnOk result (out.new.items ≡ out.old.items ++ refusal_text why) }
{
    match why {
        Refusal::NotFound(at) => push_refused_at(out, b"NotFound ", at),
        Refusal::NotDir(at) => push_refused_at(out, b"NotDir ", at),
        Refusal::IsDir => push_text(out, b"IsDir"),
        Refusal::Exists => push_text(out, b"Exists"),
        Refusal::NotEmpty => push_text(out, b"NotEmpty"),
        Refusal::TooLong => push_text(out, b"TooLong"),
        Refusal::DirFull => push_text(out, b"DirFull"),
        Refusal::Root => push_text(out, b"Root"),
        Refusal::Loop => push_text(out, b"Loop"),
    }
}

fn push_refused_at(out: &mut Vec<u8>, name: &[u8], at: u8) -> Result<(), NoMemory>
    ensures { OnOk result (out.new.items ≡ out.old.items ++ (name.now ++ decimal at)) }
{
    push_text(out, name)?;
    push_number(out, u64::from(at))
}

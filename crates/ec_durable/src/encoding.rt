// The records are written.
ghost use Rattle.std.specs.Prelude.{◌≡◌, ◌≤◌, ◌++◌, ◌&&◌, true, [], length, IfOk, OnOk};
ghost use Rattle.std.specs.List.{flat_map, list_all};
ghost use Rattle.ec_volume.specs.Update.{is_sound};
ghost use Rattle.ec_codes.specs.Formats.{rows_fit};
ghost use Rattle.ec_codes.specs.Spelling.{Writes};
ghost use Rattle.ec_durable.specs.Codes.{is_op_count, op_fields, ops_field, batch_fields, open_fields, end_fields, ids_fields, record_code};
ghost use Rattle.ec_durable.specs.SoundRecords.{is_sound_record, max_record_code};

use crate::record::Record;
use ec_base::{Age, ClerkId, NoMemory, ObjId, OpNo, SessionNo};
use ec_codes::{put_age, put_byte, put_clerk, put_id, put_long, put_update, put_word};
use ec_volume::Update;
use std::alloc::Global;

// Most records are shorter than this.
const USUAL_BYTES: usize = 4_096;

/// The bytes of a record: a batch of 1 to 64 operations, each with a sound update, or any other record. There are at
/// most 263,443 bytes.
pub fn encode(alloc: Global, change: &Record) -> Result<Vec<u8>, NoMemory>
    requires { is_sound_record change.now ≡ true }
    ensures spelled { IfOk result (λ bytes. bytes.items ≡ record_code.spell change.now) }
    ensures fits { IfOk result (λ bytes. record_code.fits change.now ≡ true) }
    ensures short { IfOk result (λ bytes. length bytes.items ≤ max_record_code) }
{
    let mut out = Vec::with_capacity(alloc, USUAL_BYTES)?;
    put_record(&mut out, change)?;
    Ok(out)
}

#[tactic(auto, unfolding(crate::specs::Codes::record_code, crate::specs::Codes::form))]
fn put_record(out: &mut Vec<u8>, change: &Record) -> Result<(), NoMemory>
    requires { is_sound_record change.now ≡ true }
    ensures { OnOk result (Writes record_code change.now out.old.items out.new.items) }
{
    match change {
        Record::Batch(clerk, session, batch, ops) => {
            put_byte(out, 1)?;
            put_batch(out, *clerk, *session, *batch, ops.as_slice())
        }
        Record::Open(clerk, age, session) => {
            put_byte(out, 2)?;
            put_open(out, *clerk, *age, *session)
        }
        Record::End(clerk, session) => {
            put_byte(out, 3)?;
            put_end(out, *clerk, *session)
        }
        Record::Ids(clerk, session, got, first) => {
            put_byte(out, 4)?;
            put_ids(out, *clerk, *session, *got, *first)
        }
        Record::Epoch(epoch) => {
            put_byte(out, 5)?;
            put_long(out, *epoch)
        }
    }
}

#[tactic(auto, unfolding(crate::specs::Codes::batch_fields))]
fn put_batch(
    out: &mut Vec<u8>,
    clerk: ClerkId,
    session: SessionNo,
    batch: u64,
    ops: &[(OpNo, Update)],
) -> Result<(), NoMemory>
    requires count { is_op_count (length ops.now) ≡ true }
    requires sound { list_all (λ op. is_sound op.1) ops.now ≡ true }
    ensures { OnOk result (Writes batch_fields (clerk, (session, (batch, ops.now))) out.old.items out.new.items) }
{
    put_clerk(out, clerk)?;
    put_long(out, session.0)?;
    put_long(out, batch)?;
    put_ops(out, ops)
}

#[tactic(auto, unfolding(crate::specs::Codes::open_fields))]
fn put_open(out: &mut Vec<u8>, clerk: ClerkId, age: Age, session: SessionNo) -> Result<(), NoMemory>
    ensures { OnOk result (Writes open_fields (clerk, (age, session)) out.old.items out.new.items) }
{
    put_clerk(out, clerk)?;
    put_age(out, age)?;
    put_long(out, session.0)
}

#[tactic(auto, unfolding(crate::specs::Codes::end_fields))]
fn put_end(out: &mut Vec<u8>, clerk: ClerkId, session: SessionNo) -> Result<(), NoMemory>
    ensures { OnOk result (Writes end_fields (clerk, session) out.old.items out.new.items) }
{
    put_clerk(out, clerk)?;
    put_long(out, session.0)
}

#[tactic(auto, unfolding(crate::specs::Codes::ids_fields))]
fn put_ids(
    out: &mut Vec<u8>,
    clerk: ClerkId,
    session: SessionNo,
    got: u32,
    first: ObjId,
) -> Result<(), NoMemory>
    ensures { OnOk result (Writes ids_fields (clerk, (session, (got, first))) out.old.items out.new.items) }
{
    put_clerk(out, clerk)?;
    put_long(out, session.0)?;
    put_word(out, got)?;
    put_id(out, first)
}

#[tactic(auto, unfolding(crate::specs::Codes::ops_field))]
fn put_ops(out: &mut Vec<u8>, ops: &[(OpNo, Update)]) -> Result<(), NoMemory>
    requires count { is_op_count (length ops.now) ≡ true }
    requires sound { list_all (λ op. is_sound op.1) ops.now ≡ true }
    ensures { OnOk result (Writes ops_field ops.now out.old.items out.new.items) }
{
    put_byte(out, ops.len() as u8)?;
    put_op_rows(out, ops)
}

fn put_op_rows(out: &mut Vec<u8>, ops: &[(OpNo, Update)]) -> Result<(), NoMemory>
    requires { list_all (λ op. is_sound op.1) ops.now ≡ true }
    ensures spelled { OnOk result (out.new.items ≡ out.old.items ++ flat_map op_fields.spell ops.now) }
    ensures fit { OnOk result (rows_fit (λ before. op_fields) [] ops.now ≡ true) }
{
    put_each_op(out, ops)
}

// There are 64 operations at most.
fn put_each_op(out: &mut Vec<u8>, ops: &[(OpNo, Update)]) -> Result<(), NoMemory>
    requires { list_all (λ op. is_sound op.1) ops.now ≡ true }
    ensures spelled { OnOk result (out.new.items ≡ out.old.items ++ flat_map op_fields.spell ops.now) }
    ensures fit { OnOk result (list_all op_fields.fits ops.now ≡ true) }
{
    match ops {
        [] => Ok(()),
        [op, rest @ ..] => {
            put_op(out, op)?;
            put_each_op(out, rest)
        }
    }
}

#[tactic(auto, unfolding(crate::specs::Codes::op_fields))]
fn put_op(out: &mut Vec<u8>, op: &(OpNo, Update)) -> Result<(), NoMemory>
    requires { is_sound op.now.1 ≡ true }
    ensures { OnOk result (Writes op_fields op.now out.old.items out.new.items) }
{
    put_long(out, op.0.0)?;
    put_update(&op.1, out)
}

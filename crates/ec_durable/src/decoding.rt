// The records are read.
ghost use Rattle.std.specs.Prelude.{◌≡◌, true, [], IfOk, Ok};
ghost use Rattle.ec_codes.specs.Formats.{variant, rows_read};
ghost use Rattle.ec_codes.specs.Readers.{Reads};
ghost use Rattle.ec_durable.specs.Steps.{AreSound};
ghost use Rattle.ec_durable.specs.Codes.{op_fields, ops_field, batch_fields, open_fields, end_fields, ids_fields, form, record_code, said};
ghost use Rattle.ec_durable.specs.SoundRecords.{is_sound_record, ReadsRecord};
ghost use Rattle.ec_durable.specs.Codes.{batched, to_batch, opened, to_open, ended, to_end, granted, to_ids};
ghost use Rattle.ec_durable.specs.declared.record.Record.{Record};

use crate::limits::MAX_BATCH_OPS;
use crate::record::Record;
use ec_base::{List, OpNo, SessionNo};
use ec_codes::{CodeFault, Reader};
use ec_volume::Update;
use std::alloc::Global;

/// The record of these bytes. A byte behind the last field is refused as a field at its place.
pub fn decode(alloc: Global, bytes: &[u8]) -> Result<Record, CodeFault>
    // What is read is sound, and these bytes are its code.
    ensures sound { IfOk result (λ r. (is_sound_record r ≡ true) × AreSound r) }
    ensures found { IfOk result (λ r. (record_code.fits r ≡ true) × (bytes.now ≡ record_code.spell r)) }
    // A record with this code is read, unless memory runs out.
    ensures only { (r : Record) → record_code.fits r ≡ true → bytes.now ≡ record_code.spell r → ReadsRecord result (Ok r) }
    // Which fault it is.
    ensures exact { ReadsRecord result (said bytes.now) }
{
    read_whole(alloc, bytes)
}

#[tactic(auto, unfolding(crate::specs::Codes::said))]
fn read_whole(alloc: Global, bytes: &[u8]) -> Result<Record, CodeFault>
    ensures { ReadsRecord result (said bytes.now) }
{
    let mut reader = Reader::new(alloc, bytes, 0);
    let record = read_record(&mut reader)?;
    let place = reader.place();
    if place < bytes.len() {
        return Err(CodeFault::Field(place));
    }
    Ok(record)
}

#[tactic(auto, unfolding(crate::specs::Codes::record_code))]
fn read_record(reader: &mut Reader) -> Result<Record, CodeFault>
    ensures { Reads (λ r. r) record_code.read reader.old result reader.new }
{
    let start = reader.place();
    let tag = reader.byte()?;
    if tag < 1 || tag > 5 {
        return Err(CodeFault::Field(start));
    }
    read_form(reader, tag)
}

// The form that the tag says.
#[tactic(auto, unfolding(crate::specs::Codes::form))]
fn read_form(reader: &mut Reader, tag: u8) -> Result<Record, CodeFault>
    ensures { Reads (λ r. r) (form tag).read reader.old result reader.new }
{
    match tag {
        1 => read_batch(reader),
        2 => read_open(reader),
        3 => read_end(reader),
        4 => read_ids(reader),
        5 => Ok(Record::Epoch(reader.long()?)),
        _ => Err(CodeFault::Field(reader.place())),
    }
}

#[tactic(auto, unfolding(crate::specs::Codes::batch_fields))]
fn read_batch(reader: &mut Reader) -> Result<Record, CodeFault>
    ensures { Reads (λ r. r) (variant batched to_batch batch_fields).read reader.old result reader.new }
{
    let clerk = reader.clerk()?;
    let session = SessionNo(reader.long()?);
    let batch = reader.long()?;
    let ops = List::of(read_ops(reader)?);
    Ok(Record::Batch(clerk, session, batch, ops))
}

#[tactic(auto, unfolding(crate::specs::Codes::open_fields))]
fn read_open(reader: &mut Reader) -> Result<Record, CodeFault>
    ensures { Reads (λ r. r) (variant opened to_open open_fields).read reader.old result reader.new }
{
    let clerk = reader.clerk()?;
    let age = reader.age()?;
    let session = SessionNo(reader.long()?);
    Ok(Record::Open(clerk, age, session))
}

#[tactic(auto, unfolding(crate::specs::Codes::end_fields))]
fn read_end(reader: &mut Reader) -> Result<Record, CodeFault>
    ensures { Reads (λ r. r) (variant ended to_end end_fields).read reader.old result reader.new }
{
    let clerk = reader.clerk()?;
    let session = SessionNo(reader.long()?);
    Ok(Record::End(clerk, session))
}

#[tactic(auto, unfolding(crate::specs::Codes::ids_fields))]
fn read_ids(reader: &mut Reader) -> Result<Record, CodeFault>
    ensures { Reads (λ r. r) (variant granted to_ids ids_fields).read reader.old result reader.new }
{
    let clerk = reader.clerk()?;
    let session = SessionNo(reader.long()?);
    let got = reader.word()?;
    let first = reader.id()?;
    Ok(Record::Ids(clerk, session, got, first))
}

#[tactic(auto, unfolding(crate::specs::Codes::ops_field))]
fn read_ops(reader: &mut Reader) -> Result<Vec<(OpNo, Update)>, CodeFault>
    ensures { Reads (λ ops. ops.items) ops_field.read reader.old result reader.new }
{
    let start = reader.place();
    let count = reader.byte()?;
    if count < 1 || count > MAX_BATCH_OPS {
        return Err(CodeFault::Field(start));
    }
    read_each_op(reader, count)
}

fn read_each_op(reader: &mut Reader, count: u8) -> Result<Vec<(OpNo, Update)>, CodeFault>
    ensures { Reads (λ ops. ops.items) (rows_read (λ before. op_fields) count []) reader.old result reader.new }
{
    let mut ops = Vec::new(reader.alloc());
    for _ in 0..count {
        let op = read_op(reader)?;
        ops.push(op)?;
    }
    Ok(ops)
}

#[tactic(auto, unfolding(crate::specs::Codes::op_fields))]
fn read_op(reader: &mut Reader) -> Result<(OpNo, Update), CodeFault>
    ensures { Reads (λ x. x) op_fields.read reader.old result reader.new }
{
    let op = OpNo(reader.long()?);
    let update = reader.update()?;
    Ok((op, update))
}

// The fields of messages are read.
ghost use Rattle.std.specs.Prelude.{◌≡◌, [], List, ℕ};
ghost use Rattle.ec_codes.specs.Formats.{such, rows_read};
ghost use Rattle.ec_codes.specs.Fields.{long, id};
ghost use Rattle.ec_codes.specs.Readers.{Reads};
ghost use Rattle.ec_wire.specs.Codes.{clerk_field, age_field, held_field, lowered_field, first_field, last_of, is_over, op_after, ops_field, token_after, tokens_field};

use ec_base::{Age, ClerkId, Hold, ObjId, OpNo};
use ec_codes::{CodeFault, Reader};
use ec_volume::Update;

#[tactic(auto, unfolding(crate::specs::Codes::clerk_field))]
pub(crate) fn clerk(reader: &mut Reader) -> Result<ClerkId, CodeFault>
    ensures { Reads (λ x. x) clerk_field.read reader.old result reader.new }
{
    let start = reader.place();
    let number = reader.byte()?;
    ClerkId::new(number).ok_or(CodeFault::Field(start))
}

#[tactic(auto, unfolding(crate::specs::Codes::age_field))]
pub(crate) fn age(reader: &mut Reader) -> Result<Age, CodeFault>
    ensures { Reads (λ x. x) age_field.read reader.old result reader.new }
{
    let boot = reader.long()?;
    let round = reader.word()?;
    Ok(Age { boot, round })
}

#[tactic(auto, unfolding(crate::specs::Codes::held_field))]
pub(crate) fn held(reader: &mut Reader) -> Result<Hold, CodeFault>
    ensures { Reads (λ x. x) held_field.read reader.old result reader.new }
{
    let start = reader.place();
    match reader.byte()? {
        1 => Ok(Hold::Read),
        2 => Ok(Hold::Write),
        _ => Err(CodeFault::Field(start)),
    }
}

#[tactic(auto, unfolding(crate::specs::Codes::lowered_field))]
pub(crate) fn lowered(reader: &mut Reader) -> Result<Hold, CodeFault>
    ensures { Reads (λ x. x) lowered_field.read reader.old result reader.new }
{
    let start = reader.place();
    match reader.byte()? {
        0 => Ok(Hold::Free),
        1 => Ok(Hold::Read),
        _ => Err(CodeFault::Field(start)),
    }
}

#[tactic(auto, unfolding(crate::specs::Codes::first_field))]
pub(crate) fn first(reader: &mut Reader) -> Result<ObjId, CodeFault>
    ensures { Reads (λ x. x) first_field.read reader.old result reader.new }
{
    let start = reader.place();
    let object = reader.id()?;
    if object.get() > 4_294_967_279 {
        return Err(CodeFault::Field(start));
    }
    Ok(object)
}

#[tactic(auto, unfolding(crate::specs::Codes::ops_field))]
pub(crate) fn ops(reader: &mut Reader) -> Result<Vec<(OpNo, Update)>, CodeFault>
    ensures { Reads (λ ops. ops.items) ops_field.read reader.old result reader.new }
{
    let start = reader.place();
    let count = reader.byte()?;
    if count < 1 || count > 64 {
        return Err(CodeFault::Field(start));
    }
    op_rows(reader, count)
}

fn op_rows(reader: &mut Reader, count: u8) -> Result<Vec<(OpNo, Update)>, CodeFault>
    ensures { Reads (λ ops. ops.items) (rows_read op_after count []) reader.old result reader.new }
{
    let mut rows = Vec::new(reader.alloc());
    for _ in 0..count {
        let row = op_after(reader, &rows)?;
        rows.push(row)?;
    }
    Ok(rows)
}

#[tactic(auto, unfolding(crate::specs::Codes::op_after))]
fn op_after(reader: &mut Reader, before: &[(OpNo, Update)]) -> Result<(OpNo, Update), CodeFault>
    ensures { Reads (λ x. x) (op_after before.now).read reader.old result reader.new }
{
    let op = op_over(reader, before)?;
    let update = reader.update()?;
    Ok((op, update))
}

// A number above the last one.
fn op_over(reader: &mut Reader, before: &[(OpNo, Update)]) -> Result<OpNo, CodeFault>
    ensures { Reads (λ x. x) (such (is_over (last_of before.now)) long).read reader.old result reader.new }
{
    let start = reader.place();
    let number = reader.long()?;
    if !is_op_over(before, number) {
        return Err(CodeFault::Field(start));
    }
    Ok(OpNo(number))
}

#[tactic(auto, using(crate::specs::RowLaws::last_is))]
fn is_op_over(before: &[(OpNo, Update)], number: u64) -> bool
    ensures { result ≡ is_over (last_of before.now) number }
{
    match before.last() {
        Some((last, _)) => last.0 < number,
        None => true,
    }
}

#[tactic(auto, unfolding(crate::specs::Codes::tokens_field))]
pub(crate) fn tokens(reader: &mut Reader) -> Result<Vec<(ObjId, Hold)>, CodeFault>
    ensures { Reads (λ tokens. tokens.items) tokens_field.read reader.old result reader.new }
{
    let count = reader.word()?;
    token_rows(reader, count)
}

fn token_rows(reader: &mut Reader, count: u32) -> Result<Vec<(ObjId, Hold)>, CodeFault>
    ensures { Reads (λ tokens. tokens.items) (rows_read token_after count []) reader.old result reader.new }
{
    let mut rows = Vec::new(reader.alloc());
    for _ in 0..count {
        let row = token_after(reader, &rows)?;
        rows.push(row)?;
    }
    Ok(rows)
}

#[tactic(auto, unfolding(crate::specs::Codes::token_after))]
fn token_after(reader: &mut Reader, before: &[(ObjId, Hold)]) -> Result<(ObjId, Hold), CodeFault>
    ensures { Reads (λ x. x) (token_after before.now).read reader.old result reader.new }
{
    let object = id_over(reader, before)?;
    let hold = held(reader)?;
    Ok((object, hold))
}

// An id above the last one.
fn id_over(reader: &mut Reader, before: &[(ObjId, Hold)]) -> Result<ObjId, CodeFault>
    ensures { Reads (λ x. x) (such (is_over (last_of before.now)) id).read reader.old result reader.new }
{
    let start = reader.place();
    let object = reader.id()?;
    if !is_id_over(before, object) {
        return Err(CodeFault::Field(start));
    }
    Ok(object)
}

#[tactic(auto, using(crate::specs::RowLaws::last_is))]
fn is_id_over(before: &[(ObjId, Hold)], object: ObjId) -> bool
    ensures { result ≡ is_over (last_of before.now) object }
{
    match before.last() {
        Some((last, _)) => last.get() < object.get(),
        None => true,
    }
}

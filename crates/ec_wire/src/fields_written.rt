// The fields of messages are written.
ghost use Rattle.std.specs.Prelude.{◌≡◌, ◌++◌, [], true, length, OnOk};
ghost use Rattle.std.specs.List.{flat_map, list_all};
ghost use Rattle.ec_base.specs.Tables.{keys};
ghost use Rattle.ec_volume.specs.Update.{is_sound as is_sound_update};
ghost use Rattle.ec_codes.specs.Formats.{rows_fit};
ghost use Rattle.ec_codes.specs.Spelling.{Writes};
ghost use Rattle.ec_codes.specs.Fields.{long, id};
ghost use Rattle.ec_codes.specs.Updates.{update_code};
ghost use Rattle.ec_wire.specs.Messages.{rises, is_held_mode, is_lowered_mode};
ghost use Rattle.ec_wire.specs.RowLaws.{is_row};
ghost use Rattle.ec_wire.specs.Codes.{clerk_field, age_field, held_field, lowered_field, is_first, first_field, op_after, op_spell, is_op_count, ops_field, token_after, token_spell, tokens_field};

use ec_base::{Age, ClerkId, Hold, NoMemory, ObjId, OpNo};
use ec_codes::{put_byte, put_id, put_long, put_update, put_word};
use ec_volume::Update;

#[tactic(auto, unfolding(crate::specs::Codes::clerk_field))]
pub(crate) fn put_clerk(out: &mut Vec<u8>, clerk: ClerkId) -> Result<(), NoMemory>
    ensures { OnOk result (Writes clerk_field clerk out.old.items out.new.items) }
{
    put_byte(out, clerk.get())
}

#[tactic(auto, unfolding(crate::specs::Codes::age_field))]
pub(crate) fn put_age(out: &mut Vec<u8>, age: Age) -> Result<(), NoMemory>
    ensures { OnOk result (Writes age_field age out.old.items out.new.items) }
{
    put_long(out, age.boot)?;
    put_word(out, age.round)
}

#[tactic(auto, unfolding(crate::specs::Codes::held_field))]
pub(crate) fn put_held(out: &mut Vec<u8>, hold: Hold) -> Result<(), NoMemory>
    requires { is_held_mode hold ≡ true }
    ensures { OnOk result (Writes held_field hold out.old.items out.new.items) }
{
    match hold {
        Hold::Free => put_byte(out, 0),
        Hold::Read => put_byte(out, 1),
        Hold::Write => put_byte(out, 2),
    }
}

#[tactic(auto, unfolding(crate::specs::Codes::lowered_field))]
pub(crate) fn put_lowered(out: &mut Vec<u8>, hold: Hold) -> Result<(), NoMemory>
    requires { is_lowered_mode hold ≡ true }
    ensures { OnOk result (Writes lowered_field hold out.old.items out.new.items) }
{
    match hold {
        Hold::Free => put_byte(out, 0),
        Hold::Read => put_byte(out, 1),
        Hold::Write => put_byte(out, 2),
    }
}

#[tactic(auto, unfolding(crate::specs::Codes::first_field))]
pub(crate) fn put_first(out: &mut Vec<u8>, object: ObjId) -> Result<(), NoMemory>
    requires { is_first object ≡ true }
    ensures { OnOk result (Writes first_field object out.old.items out.new.items) }
{
    put_id(out, object)
}

#[tactic(auto, unfolding(crate::specs::Codes::ops_field))]
pub(crate) fn put_ops(out: &mut Vec<u8>, ops: &[(OpNo, Update)]) -> Result<(), NoMemory>
    requires count { is_op_count (length ops.now) ≡ true }
    requires rise { rises (keys ops.now) ≡ true }
    requires sound { list_all (λ op. is_sound_update op.1) ops.now ≡ true }
    ensures { OnOk result (Writes ops_field ops.now out.old.items out.new.items) }
{
    put_byte(out, ops.len() as u8)?;
    put_op_rows(out, ops)
}

fn put_op_rows(out: &mut Vec<u8>, ops: &[(OpNo, Update)]) -> Result<(), NoMemory>
    requires rise { rises (keys ops.now) ≡ true }
    requires sound { list_all (λ op. is_sound_update op.1) ops.now ≡ true }
    ensures spelled { OnOk result (out.new.items ≡ out.old.items ++ flat_map op_spell ops.now) }
    ensures fit { OnOk result (rows_fit op_after [] ops.now ≡ true) }
{
    put_each_op(out, ops)
}

// There are 64 operations at most.
fn put_each_op(out: &mut Vec<u8>, ops: &[(OpNo, Update)]) -> Result<(), NoMemory>
    requires { list_all (λ op. is_sound_update op.1) ops.now ≡ true }
    ensures spelled { OnOk result (out.new.items ≡ out.old.items ++ flat_map op_spell ops.now) }
    ensures fit { OnOk result (list_all (is_row long update_code) ops.now ≡ true) }
{
    match ops {
        [] => Ok(()),
        [op, rest @ ..] => {
            put_op(out, op)?;
            put_each_op(out, rest)
        }
    }
}

#[tactic(auto, unfolding(crate::specs::Codes::op_spell))]
fn put_op(out: &mut Vec<u8>, op: &(OpNo, Update)) -> Result<(), NoMemory>
    requires { is_sound_update op.now.1 ≡ true }
    ensures spelled { OnOk result (out.new.items ≡ out.old.items ++ op_spell op.now) }
    ensures fit { OnOk result (is_row long update_code op.now ≡ true) }
{
    put_long(out, op.0.0)?;
    put_update(&op.1, out)
}

#[tactic(auto, unfolding(crate::specs::Codes::tokens_field))]
pub(crate) fn put_tokens(out: &mut Vec<u8>, tokens: &[(ObjId, Hold)]) -> Result<(), NoMemory>
    requires rise { rises (keys tokens.now) ≡ true }
    requires held { list_all (λ t. is_held_mode t.1) tokens.now ≡ true }
    ensures { OnOk result (Writes tokens_field tokens.now out.old.items out.new.items) }
{
    // Rising ids are fewer than 2^32.
    let Ok(count) = u32::try_from(tokens.len()) else {
        return Err(NoMemory);
    };
    put_word(out, count)?;
    put_token_rows(out, tokens)
}

fn put_token_rows(out: &mut Vec<u8>, tokens: &[(ObjId, Hold)]) -> Result<(), NoMemory>
    requires rise { rises (keys tokens.now) ≡ true }
    requires held { list_all (λ t. is_held_mode t.1) tokens.now ≡ true }
    ensures spelled { OnOk result (out.new.items ≡ out.old.items ++ flat_map token_spell tokens.now) }
    ensures fit { OnOk result (rows_fit token_after [] tokens.now ≡ true) }
{
    put_each_token(out, tokens)
}

fn put_each_token(out: &mut Vec<u8>, tokens: &[(ObjId, Hold)]) -> Result<(), NoMemory>
    ensures spelled { OnOk result (out.new.items ≡ out.old.items ++ flat_map token_spell tokens.now) }
    ensures fit { OnOk result (list_all (λ t. id.fits t.0) tokens.now ≡ true) }
{
    for token in tokens {
        put_token(out, *token)?;
    }
    Ok(())
}

#[tactic(auto, unfolding(crate::specs::Codes::token_spell, crate::specs::Codes::held_field))]
fn put_token(out: &mut Vec<u8>, token: (ObjId, Hold)) -> Result<(), NoMemory>
    ensures spelled { OnOk result (out.new.items ≡ out.old.items ++ token_spell token) }
    ensures fit { OnOk result (id.fits token.0 ≡ true) }
{
    put_id(out, token.0)?;
    match token.1 {
        Hold::Free => put_byte(out, 0),
        Hold::Read => put_byte(out, 1),
        Hold::Write => put_byte(out, 2),
    }
}

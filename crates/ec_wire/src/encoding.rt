// The messages are written.
ghost use Rattle.std.specs.Prelude.{◌≡◌, true, length, IfOk, OnOk};
ghost use Rattle.std.specs.List.{list_all};
ghost use Rattle.ec_base.specs.Tables.{keys};
ghost use Rattle.ec_volume.specs.Update.{is_sound as is_sound_update};
ghost use Rattle.ec_codes.specs.Spelling.{Writes};
ghost use Rattle.ec_codes.specs.SoundImages.{is_sound_image as is_coded_image};
ghost use Rattle.ec_wire.specs.Messages.{rises, is_held_mode, is_lowered_mode, is_sound};
ghost use Rattle.ec_wire.specs.Codes.{is_first, is_op_count, msg_code};
ghost use Rattle.ec_wire.specs.Codes.{hello_fields, want_fields, back_fields, flush_fields, room_fields, claim_fields, bye_fields, opened_fields, grant_fields, recall_fields, kept_fields, ids_fields, no_room_fields, ended_fields, restarted_fields, old_boot_fields};

use crate::fields_written::{
    put_age, put_clerk, put_first, put_held, put_lowered, put_ops, put_tokens,
};
use crate::msg::Msg;
use ec_base::{Age, ClerkId, Hold, NoMemory, ObjId, OpNo, SessionNo};
use ec_codes::{put_byte, put_id, put_image, put_long, put_word};
use ec_volume::{Image, Update};
use std::alloc::Global;

/// The bytes of a sound message.
pub fn encode(alloc: Global, msg: &Msg) -> Result<Vec<u8>, NoMemory>
    requires { is_sound msg.now ≡ true }
    ensures spelled { IfOk result (λ bytes. bytes.items ≡ msg_code.spell msg.now) }
    ensures fits { IfOk result (λ bytes. msg_code.fits msg.now ≡ true) }
{
    let mut out = Vec::new(alloc);
    put_msg(&mut out, msg)?;
    Ok(out)
}

#[tactic(auto, unfolding(crate::specs::Codes::msg_code, crate::specs::Codes::msg_form))]
fn put_msg(out: &mut Vec<u8>, msg: &Msg) -> Result<(), NoMemory>
    requires { is_sound msg.now ≡ true }
    ensures { OnOk result (Writes msg_code msg.now out.old.items out.new.items) }
{
    match msg {
        Msg::Hello(clerk, age) => {
            put_byte(out, 8)?;
            put_hello(out, *clerk, *age)
        }
        Msg::Want(session, epoch, object, hold, last) => {
            put_byte(out, 2)?;
            put_want(out, *session, *epoch, *object, *hold, *last)
        }
        Msg::Back(session, epoch, object, number, hold) => {
            put_byte(out, 3)?;
            put_back(out, *session, *epoch, *object, *number, *hold)
        }
        Msg::Flush(session, epoch, batch, ops) => {
            put_byte(out, 4)?;
            put_flush(out, *session, *epoch, *batch, ops.as_slice())
        }
        Msg::Room(session, epoch, got, ask) => {
            put_byte(out, 5)?;
            put_room(out, *session, *epoch, *got, *ask)
        }
        Msg::Claim(session, epoch, tokens) => {
            put_byte(out, 6)?;
            put_claim(out, *session, *epoch, tokens.as_slice())
        }
        Msg::Bye(session, epoch) => {
            put_byte(out, 7)?;
            put_bye(out, *session, *epoch)
        }
        Msg::Opened(age, session, epoch) => {
            put_byte(out, 65)?;
            put_opened(out, *age, *session, *epoch)
        }
        Msg::Grant(session, epoch, object, number, hold, image) => {
            put_byte(out, 66)?;
            put_grant(out, *session, *epoch, *object, *number, *hold, image.get())
        }
        Msg::Recall(session, epoch, object, number, hold) => {
            put_byte(out, 67)?;
            put_recall(out, *session, *epoch, *object, *number, *hold)
        }
        Msg::Kept(session, epoch, batch) => {
            put_byte(out, 68)?;
            put_kept(out, *session, *epoch, *batch)
        }
        Msg::Ids(session, epoch, got, number, first) => {
            put_byte(out, 69)?;
            put_ids(out, *session, *epoch, *got, *number, *first)
        }
        Msg::NoRoom(session, epoch, ask, live, reserved) => {
            put_byte(out, 70)?;
            put_no_room(out, *session, *epoch, *ask, *live, *reserved)
        }
        Msg::Ended(session, low, mask) => {
            put_byte(out, 71)?;
            put_ended(out, *session, *low, *mask)
        }
        Msg::Restarted(session, epoch) => {
            put_byte(out, 72)?;
            put_restarted(out, *session, *epoch)
        }
        Msg::OldBoot(asked, greatest) => {
            put_byte(out, 73)?;
            put_old_boot(out, *asked, *greatest)
        }
    }
}

#[tactic(auto, unfolding(crate::specs::Codes::hello_fields))]
fn put_hello(out: &mut Vec<u8>, clerk: ClerkId, age: Age) -> Result<(), NoMemory>
    ensures { OnOk result (Writes hello_fields (clerk, age) out.old.items out.new.items) }
{
    put_clerk(out, clerk)?;
    put_age(out, age)
}

#[tactic(auto, unfolding(crate::specs::Codes::want_fields))]
fn put_want(
    out: &mut Vec<u8>,
    session: SessionNo,
    epoch: u64,
    object: ObjId,
    hold: Hold,
    last: u64,
) -> Result<(), NoMemory>
    requires { is_held_mode hold ≡ true }
    ensures { OnOk result (Writes want_fields (session, (epoch, (object, (hold, last)))) out.old.items out.new.items) }
{
    put_long(out, session.0)?;
    put_long(out, epoch)?;
    put_id(out, object)?;
    put_held(out, hold)?;
    put_long(out, last)
}

#[tactic(auto, unfolding(crate::specs::Codes::back_fields))]
fn put_back(
    out: &mut Vec<u8>,
    session: SessionNo,
    epoch: u64,
    object: ObjId,
    number: u64,
    hold: Hold,
) -> Result<(), NoMemory>
    requires { is_lowered_mode hold ≡ true }
    ensures { OnOk result (Writes back_fields (session, (epoch, (object, (number, hold)))) out.old.items out.new.items) }
{
    put_long(out, session.0)?;
    put_long(out, epoch)?;
    put_id(out, object)?;
    put_long(out, number)?;
    put_lowered(out, hold)
}

#[tactic(auto, unfolding(crate::specs::Codes::flush_fields))]
fn put_flush(
    out: &mut Vec<u8>,
    session: SessionNo,
    epoch: u64,
    batch: u64,
    ops: &[(OpNo, Update)],
) -> Result<(), NoMemory>
    requires count { is_op_count (length ops.now) ≡ true }
    requires rise { rises (keys ops.now) ≡ true }
    requires sound { list_all (λ op. is_sound_update op.1) ops.now ≡ true }
    ensures { OnOk result (Writes flush_fields (session, (epoch, (batch, ops.now))) out.old.items out.new.items) }
{
    put_long(out, session.0)?;
    put_long(out, epoch)?;
    put_long(out, batch)?;
    put_ops(out, ops)
}

#[tactic(auto, unfolding(crate::specs::Codes::room_fields))]
fn put_room(
    out: &mut Vec<u8>,
    session: SessionNo,
    epoch: u64,
    got: u32,
    ask: u64,
) -> Result<(), NoMemory>
    ensures { OnOk result (Writes room_fields (session, (epoch, (got, ask))) out.old.items out.new.items) }
{
    put_long(out, session.0)?;
    put_long(out, epoch)?;
    put_word(out, got)?;
    put_long(out, ask)
}

#[tactic(auto, unfolding(crate::specs::Codes::claim_fields))]
fn put_claim(
    out: &mut Vec<u8>,
    session: SessionNo,
    epoch: u64,
    tokens: &[(ObjId, Hold)],
) -> Result<(), NoMemory>
    requires rise { rises (keys tokens.now) ≡ true }
    requires held { list_all (λ t. is_held_mode t.1) tokens.now ≡ true }
    ensures { OnOk result (Writes claim_fields (session, (epoch, tokens.now)) out.old.items out.new.items) }
{
    put_long(out, session.0)?;
    put_long(out, epoch)?;
    put_tokens(out, tokens)
}

#[tactic(auto, unfolding(crate::specs::Codes::bye_fields))]
fn put_bye(out: &mut Vec<u8>, session: SessionNo, epoch: u64) -> Result<(), NoMemory>
    ensures { OnOk result (Writes bye_fields (session, epoch) out.old.items out.new.items) }
{
    put_long(out, session.0)?;
    put_long(out, epoch)
}

#[tactic(auto, unfolding(crate::specs::Codes::opened_fields))]
fn put_opened(out: &mut Vec<u8>, age: Age, session: SessionNo, epoch: u64) -> Result<(), NoMemory>
    ensures { OnOk result (Writes opened_fields (age, (session, epoch)) out.old.items out.new.items) }
{
    put_age(out, age)?;
    put_long(out, session.0)?;
    put_long(out, epoch)
}

#[tactic(auto, unfolding(crate::specs::Codes::grant_fields))]
fn put_grant(
    out: &mut Vec<u8>,
    session: SessionNo,
    epoch: u64,
    object: ObjId,
    number: u64,
    hold: Hold,
    image: &Image,
) -> Result<(), NoMemory>
    requires hold { is_held_mode hold ≡ true }
    requires image { is_coded_image image.now ≡ true }
    ensures { OnOk result (Writes grant_fields (session, (epoch, (object, (number, (hold, image.now))))) out.old.items out.new.items) }
{
    put_long(out, session.0)?;
    put_long(out, epoch)?;
    put_id(out, object)?;
    put_long(out, number)?;
    put_held(out, hold)?;
    put_image(image, out)
}

#[tactic(auto, unfolding(crate::specs::Codes::recall_fields))]
fn put_recall(
    out: &mut Vec<u8>,
    session: SessionNo,
    epoch: u64,
    object: ObjId,
    number: u64,
    hold: Hold,
) -> Result<(), NoMemory>
    requires { is_lowered_mode hold ≡ true }
    ensures { OnOk result (Writes recall_fields (session, (epoch, (object, (number, hold)))) out.old.items out.new.items) }
{
    put_long(out, session.0)?;
    put_long(out, epoch)?;
    put_id(out, object)?;
    put_long(out, number)?;
    put_lowered(out, hold)
}

#[tactic(auto, unfolding(crate::specs::Codes::kept_fields))]
fn put_kept(out: &mut Vec<u8>, session: SessionNo, epoch: u64, batch: u64) -> Result<(), NoMemory>
    ensures { OnOk result (Writes kept_fields (session, (epoch, batch)) out.old.items out.new.items) }
{
    put_long(out, session.0)?;
    put_long(out, epoch)?;
    put_long(out, batch)
}

#[tactic(auto, unfolding(crate::specs::Codes::ids_fields))]
fn put_ids(
    out: &mut Vec<u8>,
    session: SessionNo,
    epoch: u64,
    got: u32,
    number: u64,
    first: ObjId,
) -> Result<(), NoMemory>
    requires { is_first first ≡ true }
    ensures { OnOk result (Writes ids_fields (session, (epoch, (got, (number, first)))) out.old.items out.new.items) }
{
    put_long(out, session.0)?;
    put_long(out, epoch)?;
    put_word(out, got)?;
    put_long(out, number)?;
    put_first(out, first)
}

#[tactic(auto, unfolding(crate::specs::Codes::no_room_fields))]
fn put_no_room(
    out: &mut Vec<u8>,
    session: SessionNo,
    epoch: u64,
    ask: u64,
    live: u32,
    reserved: u32,
) -> Result<(), NoMemory>
    ensures { OnOk result (Writes no_room_fields (session, (epoch, (ask, (live, reserved)))) out.old.items out.new.items) }
{
    put_long(out, session.0)?;
    put_long(out, epoch)?;
    put_long(out, ask)?;
    put_word(out, live)?;
    put_word(out, reserved)
}

#[tactic(auto, unfolding(crate::specs::Codes::ended_fields))]
fn put_ended(out: &mut Vec<u8>, session: SessionNo, low: u64, mask: u8) -> Result<(), NoMemory>
    ensures { OnOk result (Writes ended_fields (session, (low, mask)) out.old.items out.new.items) }
{
    put_long(out, session.0)?;
    put_long(out, low)?;
    put_byte(out, mask)
}

#[tactic(auto, unfolding(crate::specs::Codes::restarted_fields))]
fn put_restarted(out: &mut Vec<u8>, session: SessionNo, epoch: u64) -> Result<(), NoMemory>
    ensures { OnOk result (Writes restarted_fields (session, epoch) out.old.items out.new.items) }
{
    put_long(out, session.0)?;
    put_long(out, epoch)
}

#[tactic(auto, unfolding(crate::specs::Codes::old_boot_fields))]
fn put_old_boot(out: &mut Vec<u8>, asked: Age, greatest: Age) -> Result<(), NoMemory>
    ensures { OnOk result (Writes old_boot_fields (asked, greatest) out.old.items out.new.items) }
{
    put_age(out, asked)?;
    put_age(out, greatest)
}

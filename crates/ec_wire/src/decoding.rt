// The messages are read.
ghost use Rattle.std.specs.Prelude.{◌≡◌, true, IfOk, Ok};
ghost use Rattle.ec_codes.specs.Formats.{variant};
ghost use Rattle.ec_codes.specs.Readers.{Reads};
ghost use Rattle.ec_wire.specs.Messages.{is_sound};
ghost use Rattle.ec_wire.specs.Codes.{is_kind_byte, msg_form, msg_code, said};
ghost use Rattle.ec_wire.specs.CodeAnswers.{ReadsMessage};
ghost use Rattle.ec_wire.specs.Codes.{hello_fields, want_fields, back_fields, flush_fields, room_fields, claim_fields, bye_fields, opened_fields, grant_fields, recall_fields, kept_fields, ids_fields, no_room_fields, ended_fields, restarted_fields, old_boot_fields};
ghost use Rattle.ec_wire.specs.Codes.{hello_parts, want_parts, back_parts, flush_parts, room_parts, claim_parts, bye_parts, opened_parts, grant_parts, recall_parts, kept_parts, ids_parts, no_room_parts, ended_parts, restarted_parts, old_boot_parts};
ghost use Rattle.ec_wire.specs.Codes.{to_hello, to_want, to_back, to_flush, to_room, to_claim, to_bye, to_opened, to_grant, to_recall, to_kept, to_ids, to_no_room, to_ended, to_restarted, to_old_boot};
ghost use Rattle.ec_wire.specs.declared.msg.Msg.{Msg};

use crate::fault::WireFault;
use crate::fields::{age, clerk, first, held, lowered, ops, tokens};
use crate::msg::Msg;
use ec_base::{List, SessionNo};
use ec_codes::{CodeFault, Reader};
use ec_volume::SharedImage;
use std::alloc::Global;

#[tactic(auto, unfolding(crate::specs::Codes::hello_fields))]
fn read_hello(reader: &mut Reader) -> Result<Msg, CodeFault>
    ensures { Reads (λ m. m) (variant hello_parts to_hello hello_fields).read reader.old result reader.new }
{
    let clerk = clerk(reader)?;
    let age = age(reader)?;
    Ok(Msg::Hello(clerk, age))
}

#[tactic(auto, unfolding(crate::specs::Codes::want_fields))]
fn read_want(reader: &mut Reader) -> Result<Msg, CodeFault>
    ensures { Reads (λ m. m) (variant want_parts to_want want_fields).read reader.old result reader.new }
{
    let session = SessionNo(reader.long()?);
    let epoch = reader.long()?;
    let object = reader.id()?;
    let hold = held(reader)?;
    let last = reader.long()?;
    Ok(Msg::Want(session, epoch, object, hold, last))
}

#[tactic(auto, unfolding(crate::specs::Codes::back_fields))]
fn read_back(reader: &mut Reader) -> Result<Msg, CodeFault>
    ensures { Reads (λ m. m) (variant back_parts to_back back_fields).read reader.old result reader.new }
{
    let session = SessionNo(reader.long()?);
    let epoch = reader.long()?;
    let object = reader.id()?;
    let number = reader.long()?;
    let hold = lowered(reader)?;
    Ok(Msg::Back(session, epoch, object, number, hold))
}

#[tactic(auto, unfolding(crate::specs::Codes::flush_fields))]
fn read_flush(reader: &mut Reader) -> Result<Msg, CodeFault>
    ensures { Reads (λ m. m) (variant flush_parts to_flush flush_fields).read reader.old result reader.new }
{
    let session = SessionNo(reader.long()?);
    let epoch = reader.long()?;
    let batch = reader.long()?;
    let ops = List::of(ops(reader)?);
    Ok(Msg::Flush(session, epoch, batch, ops))
}

#[tactic(auto, unfolding(crate::specs::Codes::room_fields))]
fn read_room(reader: &mut Reader) -> Result<Msg, CodeFault>
    ensures { Reads (λ m. m) (variant room_parts to_room room_fields).read reader.old result reader.new }
{
    let session = SessionNo(reader.long()?);
    let epoch = reader.long()?;
    let got = reader.word()?;
    let ask = reader.long()?;
    Ok(Msg::Room(session, epoch, got, ask))
}

#[tactic(auto, unfolding(crate::specs::Codes::claim_fields))]
fn read_claim(reader: &mut Reader) -> Result<Msg, CodeFault>
    ensures { Reads (λ m. m) (variant claim_parts to_claim claim_fields).read reader.old result reader.new }
{
    let session = SessionNo(reader.long()?);
    let epoch = reader.long()?;
    let tokens = List::of(tokens(reader)?);
    Ok(Msg::Claim(session, epoch, tokens))
}

#[tactic(auto, unfolding(crate::specs::Codes::bye_fields))]
fn read_bye(reader: &mut Reader) -> Result<Msg, CodeFault>
    ensures { Reads (λ m. m) (variant bye_parts to_bye bye_fields).read reader.old result reader.new }
{
    let session = SessionNo(reader.long()?);
    let epoch = reader.long()?;
    Ok(Msg::Bye(session, epoch))
}

#[tactic(auto, unfolding(crate::specs::Codes::opened_fields))]
fn read_opened(reader: &mut Reader) -> Result<Msg, CodeFault>
    ensures { Reads (λ m. m) (variant opened_parts to_opened opened_fields).read reader.old result reader.new }
{
    let age = age(reader)?;
    let session = SessionNo(reader.long()?);
    let epoch = reader.long()?;
    Ok(Msg::Opened(age, session, epoch))
}

#[tactic(auto, unfolding(crate::specs::Codes::grant_fields))]
fn read_grant(reader: &mut Reader) -> Result<Msg, CodeFault>
    ensures { Reads (λ m. m) (variant grant_parts to_grant grant_fields).read reader.old result reader.new }
{
    let session = SessionNo(reader.long()?);
    let epoch = reader.long()?;
    let object = reader.id()?;
    let number = reader.long()?;
    let hold = held(reader)?;
    let image = SharedImage::new(reader.alloc(), reader.image()?)?;
    Ok(Msg::Grant(session, epoch, object, number, hold, image))
}

#[tactic(auto, unfolding(crate::specs::Codes::recall_fields))]
fn read_recall(reader: &mut Reader) -> Result<Msg, CodeFault>
    ensures { Reads (λ m. m) (variant recall_parts to_recall recall_fields).read reader.old result reader.new }
{
    let session = SessionNo(reader.long()?);
    let epoch = reader.long()?;
    let object = reader.id()?;
    let number = reader.long()?;
    let hold = lowered(reader)?;
    Ok(Msg::Recall(session, epoch, object, number, hold))
}

#[tactic(auto, unfolding(crate::specs::Codes::kept_fields))]
fn read_kept(reader: &mut Reader) -> Result<Msg, CodeFault>
    ensures { Reads (λ m. m) (variant kept_parts to_kept kept_fields).read reader.old result reader.new }
{
    let session = SessionNo(reader.long()?);
    let epoch = reader.long()?;
    let batch = reader.long()?;
    Ok(Msg::Kept(session, epoch, batch))
}

#[tactic(auto, unfolding(crate::specs::Codes::ids_fields))]
fn read_ids(reader: &mut Reader) -> Result<Msg, CodeFault>
    ensures { Reads (λ m. m) (variant ids_parts to_ids ids_fields).read reader.old result reader.new }
{
    let session = SessionNo(reader.long()?);
    let epoch = reader.long()?;
    let got = reader.word()?;
    let number = reader.long()?;
    let first = first(reader)?;
    Ok(Msg::Ids(session, epoch, got, number, first))
}

#[tactic(auto, unfolding(crate::specs::Codes::no_room_fields))]
fn read_no_room(reader: &mut Reader) -> Result<Msg, CodeFault>
    ensures { Reads (λ m. m) (variant no_room_parts to_no_room no_room_fields).read reader.old result reader.new }
{
    let session = SessionNo(reader.long()?);
    let epoch = reader.long()?;
    let ask = reader.long()?;
    let live = reader.word()?;
    let reserved = reader.word()?;
    Ok(Msg::NoRoom(session, epoch, ask, live, reserved))
}

#[tactic(auto, unfolding(crate::specs::Codes::ended_fields))]
fn read_ended(reader: &mut Reader) -> Result<Msg, CodeFault>
    ensures { Reads (λ m. m) (variant ended_parts to_ended ended_fields).read reader.old result reader.new }
{
    let session = SessionNo(reader.long()?);
    let low = reader.long()?;
    let mask = reader.byte()?;
    Ok(Msg::Ended(session, low, mask))
}

#[tactic(auto, unfolding(crate::specs::Codes::restarted_fields))]
fn read_restarted(reader: &mut Reader) -> Result<Msg, CodeFault>
    ensures { Reads (λ m. m) (variant restarted_parts to_restarted restarted_fields).read reader.old result reader.new }
{
    let session = SessionNo(reader.long()?);
    let epoch = reader.long()?;
    Ok(Msg::Restarted(session, epoch))
}

#[tactic(auto, unfolding(crate::specs::Codes::old_boot_fields))]
fn read_old_boot(reader: &mut Reader) -> Result<Msg, CodeFault>
    ensures { Reads (λ m. m) (variant old_boot_parts to_old_boot old_boot_fields).read reader.old result reader.new }
{
    let asked = age(reader)?;
    let greatest = age(reader)?;
    Ok(Msg::OldBoot(asked, greatest))
}

// The fields behind a byte for the kind.
#[tactic(auto, unfolding(crate::specs::Codes::msg_form))]
fn read_form(reader: &mut Reader, kind: u8) -> Result<Msg, CodeFault>
    ensures { Reads (λ m. m) (msg_form kind).read reader.old result reader.new }
{
    match kind {
        2 => read_want(reader),
        3 => read_back(reader),
        4 => read_flush(reader),
        5 => read_room(reader),
        6 => read_claim(reader),
        7 => read_bye(reader),
        8 => read_hello(reader),
        65 => read_opened(reader),
        66 => read_grant(reader),
        67 => read_recall(reader),
        68 => read_kept(reader),
        69 => read_ids(reader),
        70 => read_no_room(reader),
        71 => read_ended(reader),
        72 => read_restarted(reader),
        73 => read_old_boot(reader),
        _ => Err(CodeFault::Field(reader.place())),
    }
}

fn is_kind_byte(byte: u8) -> bool
    ensures { result ≡ is_kind_byte byte }
{
    (2 <= byte && byte <= 8) || (65 <= byte && byte <= 73)
}

/// The message of these bytes.
pub fn decode(alloc: Global, bytes: &[u8]) -> Result<Msg, WireFault>
    // What is read is sound, and these bytes are its code.
    ensures sound { IfOk result (λ m. is_sound m ≡ true) }
    ensures found { IfOk result (λ m. (msg_code.fits m ≡ true) × (bytes.now ≡ msg_code.spell m)) }
    // A message with this code is read, unless memory runs out.
    ensures only { (m : Msg) → msg_code.fits m ≡ true → bytes.now ≡ msg_code.spell m → ReadsMessage result (Ok m) }
    // Which fault it is.
    ensures exact { ReadsMessage result (said bytes.now) }
{
    read_whole(alloc, bytes)
}

#[tactic(auto, unfolding(crate::specs::Codes::said))]
fn read_whole(alloc: Global, bytes: &[u8]) -> Result<Msg, WireFault>
    ensures { ReadsMessage result (said bytes.now) }
{
    if bytes.is_empty() {
        return Err(WireFault::Short(0));
    }
    let kind = bytes[0];
    if !is_kind_byte(kind) {
        return Err(WireFault::Kind(kind));
    }
    let mut reader = Reader::new(alloc, bytes, 1);
    let msg = read_form(&mut reader, kind)?;
    let place = reader.place();
    if place < bytes.len() {
        return Err(WireFault::Trailing(place));
    }
    Ok(msg)
}

// Which messages are sound.
ghost use Rattle.std.specs.Prelude.{◌≡◌, ◌≤◌, ◌&&◌, nat_le, length, map, drop};
ghost use Rattle.std.specs.List.{list_all};
ghost use Rattle.ec_base.specs.Tables.{keys};
ghost use Rattle.ec_volume.specs.Update.{is_sound as is_sound_update, member, distinct};
ghost use Rattle.ec_wire.specs.RowLaws.{is_next};
ghost use Rattle.ec_wire.specs.Messages.{is_held_mode, is_lowered_mode, is_sound_image, rises, is_sound};

use crate::msg::Msg;
use ec_base::{Hold, ObjId, OpNo};
use ec_volume::{Entries, Image, Update};

impl Msg {
    /// Whether the fields are within their ranges. It takes no memory.
    pub fn sound(&self) -> bool
        ensures { result ≡ is_sound self.now }
    {
        match self {
            Msg::Want(_, _, _, hold, _) => is_held_mode(*hold),
            Msg::Back(_, _, _, _, hold) => is_lowered_mode(*hold),
            Msg::Flush(_, _, _, ops) => are_ops(ops.as_slice()),
            Msg::Claim(_, _, tokens) => are_tokens(tokens.as_slice()),
            Msg::Grant(_, _, _, _, hold, image) => is_held_mode(*hold)
                && is_sound_image(image.get()),
            Msg::Recall(_, _, _, _, hold) => is_lowered_mode(*hold),
            Msg::Ids(_, _, _, _, first) => first.get() <= 4_294_967_279,
            Msg::Hello(..)
            | Msg::Room(..)
            | Msg::Bye(..)
            | Msg::Opened(..)
            | Msg::Kept(..)
            | Msg::NoRoom(..)
            | Msg::Ended(..)
            | Msg::Restarted(..)
            | Msg::OldBoot(..) => true,
        }
    }
}

fn is_held_mode(hold: Hold) -> bool
    ensures { result ≡ is_held_mode hold }
{
    match hold {
        Hold::Free => false,
        Hold::Read | Hold::Write => true,
    }
}

fn is_lowered_mode(hold: Hold) -> bool
    ensures { result ≡ is_lowered_mode hold }
{
    match hold {
        Hold::Free | Hold::Read => true,
        Hold::Write => false,
    }
}

fn are_ops(ops: &[(OpNo, Update)]) -> bool
    ensures { result ≡ (nat_le 1 (length ops.now) && nat_le (length ops.now) 64 && rises (keys ops.now) && list_all (λ op. is_sound_update op.1) ops.now) }
{
    1 <= ops.len() && ops.len() <= 64 && ops_rise(ops) && ops_sound(ops)
}

#[tactic(auto, using(crate::specs::RowLaws::rises_all, crate::specs::RowLaws::next_more, crate::specs::RowLaws::next_none))]
fn ops_rise(ops: &[(OpNo, Update)]) -> bool
    ensures { result ≡ rises (keys ops.now) }
{
    let mut last = None;
    for op in ops {
        if !is_next_op(last, op.0) {
            return false;
        }
        last = Some(op.0);
    }
    true
}

fn is_next_op(last: Option<OpNo>, op: OpNo) -> bool
    ensures { result ≡ is_next last op }
{
    match last {
        Some(last) => last.0 < op.0,
        None => true,
    }
}

// There are 64 operations at most.
fn ops_sound(ops: &[(OpNo, Update)]) -> bool
    ensures { result ≡ list_all (λ op. is_sound_update op.1) ops.now }
{
    match ops {
        [] => true,
        [op, rest @ ..] => op.1.sound() && ops_sound(rest),
    }
}

fn are_tokens(tokens: &[(ObjId, Hold)]) -> bool
    ensures { result ≡ (rises (keys tokens.now) && list_all (λ t. is_held_mode t.1) tokens.now) }
{
    tokens_rise(tokens) && tokens_held(tokens)
}

fn tokens_held(tokens: &[(ObjId, Hold)]) -> bool
    ensures { result ≡ list_all (λ t. is_held_mode t.1) tokens.now }
{
    for token in tokens {
        if !is_held_mode(token.1) {
            return false;
        }
    }
    true
}

#[tactic(auto, using(crate::specs::RowLaws::rises_all, crate::specs::RowLaws::next_more, crate::specs::RowLaws::next_none))]
fn tokens_rise(tokens: &[(ObjId, Hold)]) -> bool
    ensures { result ≡ rises (keys tokens.now) }
{
    let mut last = None;
    for token in tokens {
        if !is_next(last, token.0) {
            return false;
        }
        last = Some(token.0);
    }
    true
}

fn is_next(last: Option<ObjId>, object: ObjId) -> bool
    ensures { result ≡ is_next last object }
{
    match last {
        Some(last) => last.get() < object.get(),
        None => true,
    }
}

fn is_sound_image(image: &Image) -> bool
    ensures { result ≡ is_sound_image image.now }
{
    match image {
        Image::Gone => true,
        Image::File { mode, bytes, .. } => *mode <= 4095 && bytes.as_slice().len() <= 65536,
        Image::Dir { mode, entries, .. } => {
            *mode <= 4095 && entries.len() <= 128 && ids_apart(entries, 0)
        }
    }
}

// Whether no id stands twice from this place on. There are 128 entries at most.
#[tactic(auto, using(crate::specs::RowLaws::drop_here, crate::specs::RowLaws::drop_past))]
fn ids_apart(entries: &Entries, place: usize) -> bool
    requires { length entries.now ≤ 128 }
    ensures { result ≡ distinct (map (λ e. e.1) (drop place entries.now)) }
{
    match entries.at(place) {
        None => true,
        Some(entry) => !is_later(entries, place + 1, entry.1) && ids_apart(entries, place + 1),
    }
}

#[tactic(auto, using(crate::specs::RowLaws::drop_here, crate::specs::RowLaws::drop_past))]
fn is_later(entries: &Entries, place: usize, id: ObjId) -> bool
    requires { length entries.now ≤ 128 }
    ensures { result ≡ member id (map (λ e. e.1) (drop place entries.now)) }
{
    match entries.at(place) {
        None => false,
        Some(entry) => id == entry.1 || is_later(entries, place + 1, id),
    }
}

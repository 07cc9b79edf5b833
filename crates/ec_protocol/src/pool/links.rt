// Links between clerks and the server, and the first pending message that its link delivers.
ghost use Rattle.std.specs.Prelude.{◌≡◌, ◌==◌, ◌&&◌, not, filter, option_copied};
ghost use Rattle.ec_base.specs.Tables.{at, first};
ghost use Rattle.ec_volume.specs.Update.{member};
ghost use Rattle.ec_protocol.specs.OfPool.Insides.{link_of, passes};
ghost use Rattle.ec_protocol.specs.OfPool.Goings.{going, is_kept_from};
ghost use Rattle.ec_wire.specs.RowLaws.{key_of};

use crate::Sent;
use crate::pool::kinds::{is_for_server, is_same_kind, kind_of};
use ec_base::ClerkId;
use ec_wire::MsgKind;
use std::collections::BTreeMap;

// Which way a message goes.
#[derive(Clone, Copy, Drop)]
pub(crate) struct Link {
    pub(crate) clerk: ClerkId,
    pub(crate) is_for_server: bool,
}

pub(crate) fn link_of(sent: &Sent) -> Link
    ensures { result ≡ link_of sent.now }
{
    Link {
        clerk: sent.clerk,
        is_for_server: is_for_server(sent),
    }
}

pub(crate) fn is_among(clerks: &[ClerkId], clerk: ClerkId) -> bool
    ensures { result ≡ member clerk clerks.now }
{
    clerks.iter().any(|cut| clerk == *cut)
}

pub(crate) fn mend(clerks: &mut Vec<ClerkId>, clerk: ClerkId)
    ensures { clerks.new.items ≡ filter (λ d. not (d == clerk)) clerks.old.items }
{
    clerks.retain(|cut| *cut != clerk);
}

// The first number whose link isn't cut, and isn't to a stopped server.
pub(crate) fn first_due(
    pending: &[(u64, Link)],
    cut: &[ClerkId],
    server_is_running: bool,
) -> Option<u64>
    ensures { result ≡ key_of (first (λ p. passes cut.now server_is_running p.1) pending.now) }
{
    for (number, link) in pending {
        if passes(*link, cut, server_is_running) {
            return Some(*number);
        }
    }
    None
}

fn passes(link: Link, cut: &[ClerkId], server_is_running: bool) -> bool
    ensures { result ≡ passes cut.now server_is_running link }
{
    !is_among(cut, link.clerk) && (!link.is_for_server || server_is_running)
}

// The first such number of a message that isn't kept from these clerks.
pub(crate) fn first_due_but(
    pending: &[(u64, Link)],
    kept: &BTreeMap<u64, Sent>,
    cut: &[ClerkId],
    server_is_running: bool,
    held: &[ClerkId],
) -> Option<u64>
    ensures { result ≡ key_of (first (λ p. passes cut.now server_is_running p.1 && not (is_kept_from held.now (going (at p.0 kept.now.entries)))) pending.now) }
{
    for (number, link) in pending {
        if goes(*number, *link, kept, cut, server_is_running, held) {
            return Some(*number);
        }
    }
    None
}

// Whether a pending message can be delivered, and isn't kept from these clerks.
fn goes(
    number: u64,
    link: Link,
    kept: &BTreeMap<u64, Sent>,
    cut: &[ClerkId],
    server_is_running: bool,
    held: &[ClerkId],
) -> bool
    ensures { result ≡ passes cut.now server_is_running link && not (is_kept_from held.now (going (at number kept.now.entries))) }
{
    passes(link, cut, server_is_running) && !is_kept_from(kept.get(&number), held)
}

// Whether the message is no Ended, and goes to one of these clerks.
fn is_kept_from(sent: Option<&Sent>, held: &[ClerkId]) -> bool
    ensures { result ≡ is_kept_from held.now (going (option_copied sent.entry)) }
{
    match sent {
        Some(sent) => {
            !is_for_server(sent)
                && !is_same_kind(kind_of(&sent.msg), MsgKind::Ended)
                && is_among(held, sent.clerk)
        }
        None => false,
    }
}

// Who is at the other end of a link.
ghost use Rattle.std.specs.Prelude.{◌≡◌, ◌<◌, None};
ghost use Rattle.ec_base.specs.Limits.{clerk_count};
ghost use Rattle.ec_servernode.specs.Callers.{nobody, behind, greeted, refused, refusal_sent as answered, hello_in, accepted, refusal_of, refusal_in, posted};

use crate::passes::first_clerk;
use ec_base::{Age, ClerkId};
use ec_wire::Msg;

/// What is answered to a Hello of a smaller age than the server knows.
#[derive(Clone, Copy, Drop)]
pub struct Refusal {
    pub asked: Age,
    pub greatest: Age,
}

/// The other end of a link, by what it said.
#[derive(Clone, Copy, Drop)]
pub struct Caller {
    /// The clerk of its last Hello that wasn't refused, and `A` before the first one.
    pub clerk: ClerkId,
    /// Whether there was one.
    pub has_greeted: bool,
    /// What is still to be answered to its last Hello that was refused.
    pub refusal: Option<Refusal>,
}

impl Caller {
    /// It said nothing yet.
    pub(crate) fn nobody() -> Caller
        ensures value { result ≡ nobody }
        ensures below { result.clerk < clerk_count }
    {
        Caller {
            clerk: first_clerk(),
            has_greeted: false,
            refusal: None,
        }
    }

    /// Behind a message with a Hello that wasn't refused, or one that was.
    pub(crate) fn behind(&self, hello: Option<ClerkId>, refusal: Option<Refusal>) -> Caller
        requires { self.now.clerk < clerk_count }
        ensures value { result ≡ behind hello refusal self.now }
        ensures below { result.clerk < clerk_count }
    {
        self.greeted(hello).refused(refusal)
    }

    fn greeted(&self, hello: Option<ClerkId>) -> Caller
        requires { self.now.clerk < clerk_count }
        ensures value { result ≡ greeted hello self.now }
        ensures below { result.clerk < clerk_count }
    {
        match hello {
            Some(clerk) => Caller {
                clerk,
                has_greeted: true,
                refusal: self.refusal,
            },
            None => *self,
        }
    }

    fn refused(&self, refusal: Option<Refusal>) -> Caller
        requires { self.now.clerk < clerk_count }
        ensures value { result ≡ refused refusal self.now }
        ensures below { result.clerk < clerk_count }
    {
        match refusal {
            Some(refusal) => Caller {
                clerk: self.clerk,
                has_greeted: self.has_greeted,
                refusal: Some(refusal),
            },
            None => *self,
        }
    }

    /// A refusal was sent, where there was one.
    pub(crate) fn answered(&self) -> Caller
        requires { self.now.clerk < clerk_count }
        ensures value { result ≡ answered self.now }
        ensures below { result.clerk < clerk_count }
    {
        Caller {
            clerk: self.clerk,
            has_greeted: self.has_greeted,
            refusal: None,
        }
    }
}

/// The clerk that a Hello tells.
pub fn hello_in(msg: &Msg) -> Option<ClerkId>
    ensures { result ≡ hello_in msg.now }
{
    match msg {
        Msg::Hello(clerk, _) => Some(*clerk),
        _ => None,
    }
}

/// The clerk that a Hello tells which isn't refused.
pub fn accepted(refusal: &Option<Refusal>, hello: Option<ClerkId>) -> Option<ClerkId>
    ensures { result ≡ accepted refusal.now hello }
{
    match refusal {
        Some(_) => None,
        None => hello,
    }
}

fn refusal_of(msg: &Msg) -> Option<Refusal>
    ensures { result ≡ refusal_of msg.now }
{
    match msg {
        Msg::OldBoot(asked, greatest) => Some(Refusal {
            asked: *asked,
            greatest: *greatest,
        }),
        _ => None,
    }
}

/// A refusal comes first of what is sent.
pub fn refusal_in(sent: &[(ClerkId, Msg)]) -> Option<Refusal>
    ensures { result ≡ refusal_in sent.now }
{
    match sent.first() {
        Some(one) => refusal_of(&one.1),
        None => None,
    }
}

/// What goes to outboxes: all but a refusal.
pub fn posted(sent: Vec<(ClerkId, Msg)>) -> Vec<(ClerkId, Msg)>
    ensures { result.items ≡ posted sent.items }
{
    match refusal_in(sent.as_slice()) {
        None => sent,
        Some(_) => {
            let mut rest = sent;
            drop(rest.remove(0));
            rest
        }
    }
}

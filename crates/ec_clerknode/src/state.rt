// The value behind the lock.
use crate::step::Step;
use crate::waiting::Waiting;
use ec_base::trace::Trace;
use ec_base::{Age, List, OpNo};
use ec_clerk::Clerk;
use ec_outs::{Kept, Patience};
use std::marker::Model;

/// The clerk, the link, the answers that other lanes have yet to take, and the list of steps.
#[derive(Drop)]
pub struct State<L> {
    pub clerk: Clerk,
    pub link: L,
    pub kept: Vec<Kept>,
    /// The operations that were told lost, as each session ended.
    pub told: Vec<List<OpNo>>,
    pub boot: Option<Age>,
    pub steps: u64,
    /// Memory was wanting where the clerk, an answer or a message was lost by it. From then on nothing is begun.
    pub broken: bool,
    /// The number of the pass that may exchange the link, where one may.
    pub linker: Option<u64>,
    /// A new link comes where this one fails, so that this is no fault of a call.
    pub lasts: bool,
    /// The link failed or was closed, and no new one has come.
    pub is_down: bool,
    /// It greeted by a new link, and hasn't sent again what is outstanding.
    pub owes: bool,
    /// The highest floor that a step left.
    pub top: u64,
    /// How long a want rests.
    pub patience: Patience,
    /// How long calls have waited.
    pub waiting: Waiting,
    pub trace: Trace<Step>,
}

/// The state behind the lock, as one pointer: each turn takes it out and puts it back.
#[derive(Drop)]
pub struct Node<L> {
    pub state: Box<State<L>>,
}

impl<L> Model for Node<L> {
    ghost use Rattle.ec_clerknode.specs.declared.state.State.{State};

    ghost Value = { State L };

    ghost view = { λ n. n.state.value };
}

/// What a shared clerk hands back.
#[derive(Drop)]
pub struct Closing<L> {
    /// There is none where a step met want of memory.
    pub clerk: Option<Clerk>,
    pub link: L,
    /// The operations that were told lost, as each session ended. Where there is no clerk, some may be wanting.
    pub told: Vec<List<OpNo>>,
    /// The first greater age of this clerk that the server told.
    pub boot: Option<Age>,
}

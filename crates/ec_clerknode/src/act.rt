// What a turn does to the clerk, before its step is in the list.
ghost use Rattle.std.specs.Prelude.{◌≡◌, [], Some, None};

use crate::fault::NodeFault;
use crate::step::Deed;
use ec_protocol::Out;
use ec_wire::Msg;
use std::alloc::Global;

/// Whether a message is the answer to a greeting.
#[derive(Clone, Copy, Drop)]
pub enum Greeted {
    No,
    Opened,
    /// The server restarted, so that the clerk itself sends again what is outstanding.
    Restarted,
}

impl Greeted {
    /// What this message answers.
    pub fn by(msg: &Msg) -> Greeted {
        match msg {
            Msg::Opened(..) => Greeted::Opened,
            Msg::Restarted(..) => Greeted::Restarted,
            _ => Greeted::No,
        }
    }
}

#[derive(Drop)]
pub struct Act {
    pub deed: Deed,
    pub outs: Vec<Out>,
    /// The fault that the turn answers once the step is in the list.
    pub fault: Option<NodeFault>,
    pub greeted: Greeted,
}

impl Act {
    /// The clerk took a step.
    pub fn step(deed: Deed, outs: Vec<Out>) -> Act
        ensures { (result.deed ≡ deed) × (result.outs.items ≡ outs.items) × (result.fault ≡ None) }
    {
        Act {
            deed,
            outs,
            fault: None,
            greeted: Greeted::No,
        }
    }

    /// The same for a message that was taken.
    pub fn took(deed: Deed, outs: Vec<Out>, greeted: Greeted) -> Act
        ensures { (result.deed ≡ deed) × (result.outs.items ≡ outs.items) × (result.fault ≡ None) }
    {
        Act {
            deed,
            outs,
            fault: None,
            greeted,
        }
    }

    /// A mark, with the fault of which it is the cause.
    pub fn mark(alloc: Global, deed: Deed, fault: NodeFault) -> Act
        ensures { (result.deed ≡ deed) × (result.outs.items ≡ []) × (result.fault ≡ Some fault) }
    {
        Act {
            deed,
            outs: Vec::new(alloc),
            fault: Some(fault),
            greeted: Greeted::No,
        }
    }
}

use ec_base::{Hold, List, ObjId, SessionNo};

/// A session's want of a mode on an object, and what was recalled for it since it was last noted:
/// each holder's session, with the number of its token.
#[derive(Drop)]
pub struct Want {
    pub session: SessionNo,
    pub obj: ObjId,
    pub hold: Hold,
    pub told: List<(SessionNo, u64)>,
}

/// What is due: a grant to a session, or the recall of a session's token, by its number, down to a
/// mode.
#[derive(Clone, Copy, Debug, Drop, PartialEq, Eq)]
pub enum Action {
    Grant(SessionNo, ObjId, Hold),
    Recall(SessionNo, ObjId, u64, Hold),
}

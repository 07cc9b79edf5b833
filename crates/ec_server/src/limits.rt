// The limits of ids.
use ec_admission::IDS_PER_GRANT;

// The last grant of ids may begin here: the id behind it is still a u32.
pub(crate) const LAST_FIRST_ID: u32 = u32::MAX - IDS_PER_GRANT;

// So often a session is granted ids.
pub(crate) const LAST_GRANTS: u32 = u32::MAX;

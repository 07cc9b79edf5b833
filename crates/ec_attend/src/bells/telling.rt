// What a server says on standard error, one line each. What can't be said there is no fault.
use ec_base::ClerkId;
use ec_servernode::ServeFault;
use std::io::{self, Eprint};
use std::net::SocketAddr;

/// How a link ends that doesn't fail.
#[derive(Clone, Copy, Drop)]
pub enum Gone {
    /// Its other end is gone.
    Closed,
    /// Its clerk has greeted on another link since.
    Replaced,
}

/// Where it serves, in the system's words where they're known.
pub fn tell_door<R: Eprint>(rt: &R, addr: &str, place: Option<SocketAddr>) {
    let _ = match place {
        Some(place) => eprintln!(rt; "echofs: serves at {place}"),
        None => eprintln!(rt; "echofs: serves at {addr}"),
    };
}

/// Why nothing is served there.
pub fn tell_no_door<R: Eprint>(rt: &R, addr: &str, why: Option<io::Error>) {
    let _ = match why {
        Some(why) => eprintln!(rt; "echofs: can't serve at {addr}: {why}"),
        None => eprintln!(rt; "echofs: can't serve at {addr}"),
    };
}

/// A link came.
pub fn tell_begin<R: Eprint>(rt: &R, number: u64) {
    let _ = eprintln!(rt; "echofs: link {number} came");
}

/// Whose link it is, once it says so.
pub fn tell_greeting<R: Eprint>(rt: &R, number: u64, clerk: ClerkId) {
    let _ = eprintln!(rt; "echofs: link {number} is {}'s", letter(clerk));
}

/// Why a link isn't served any more, and whose it was.
pub fn tell_end<R: Eprint>(
    rt: &R,
    number: u64,
    clerk: Option<ClerkId>,
    end: &Result<Gone, ServeFault>,
) {
    let _ = match (clerk, end) {
        (None, Ok(_)) => eprintln!(rt; "echofs: link {number} was closed"),
        (None, Err(fault)) => eprintln!(rt; "echofs: link {number} ended: {fault}"),
        (Some(clerk), Ok(Gone::Closed)) => {
            eprintln!(rt; "echofs: link {number} of {} was closed", letter(clerk))
        }
        (Some(clerk), Ok(Gone::Replaced)) => {
            eprintln!(rt;
                "echofs: link {number} of {} was hung up: {} has a newer one",
                letter(clerk),
                letter(clerk)
            )
        }
        (Some(clerk), Err(fault)) => {
            eprintln!(rt; "echofs: link {number} of {} ended: {fault}", letter(clerk))
        }
    };
}

/// A clerk's session is open, and the clerk has no link.
pub fn tell_wait<R: Eprint>(rt: &R, clerk: ClerkId, seconds: u64) {
    let _ = eprintln!(rt;
        "echofs: {} has an open session and no link: waits {seconds} s for it",
        letter(clerk)
    );
}

/// Its session was ended.
pub fn tell_session_end<R: Eprint>(rt: &R, clerk: ClerkId) {
    let _ = eprintln!(rt;
        "echofs: {} didn't link again: its session was ended",
        letter(clerk)
    );
}

fn letter(clerk: ClerkId) -> char {
    (b'A' + clerk.get()) as char
}

// What a mount says on standard error, one line each. What can't be said there is no fault.
use crate::work::Answers;
use ec_base::ClerkId;
use ec_clerknode::NodeFault;
use std::io::{self, Eprint};

/// Whose mount it is, and of whom it asks.
#[derive(Clone, Copy, Drop)]
pub struct Who<'a> {
    pub clerk: ClerkId,
    pub addr: &'a str,
}

impl Who<'_> {
    fn letter(&self) -> char {
        char::from(b'A'.saturating_add(self.clerk.get()))
    }
}

/// It calls the server.
pub fn tell_call<R: Eprint>(rt: &R, who: &Who<'_>) {
    let _ = eprintln!(rt; "echofs: {} calls {}", who.letter(), who.addr);
}

/// Nobody was reached, for this reason.
pub fn tell_unreached<R: Eprint>(rt: &R, who: &Who<'_>, reason: Option<io::Error>) {
    let _ = match reason {
        Some(why) => eprintln!(rt; "echofs: {} can't reach {}: {why}", who.letter(), who.addr),
        None => eprintln!(rt; "echofs: {} can't reach {}", who.letter(), who.addr),
    };
}

/// No thread can be started, and it ends.
pub fn tell_no_thread<R: Eprint>(rt: &R, who: &Who<'_>) {
    let _ = eprintln!(rt; "echofs: {} ended: no thread can be started", who.letter());
}

/// It's linked, and greets with this boot.
pub fn tell_start<R: Eprint>(rt: &R, who: &Who<'_>, boot: u64) {
    let letter = who.letter();
    let _ = eprintln!(rt; "echofs: {letter} is linked, and started with boot {boot}");
}

/// The link failed or was closed.
pub fn tell_gone<R: Eprint>(rt: &R, who: &Who<'_>) {
    let letter = who.letter();
    let _ = eprintln!(rt;
        "echofs: {letter} lost its link, and calls {} again",
        who.addr
    );
}

/// Another link came.
pub fn tell_again<R: Eprint>(rt: &R, who: &Who<'_>) {
    let _ = eprintln!(rt; "echofs: {} is linked again", who.letter());
}

/// No link came for too long, unless all calls have ended.
pub fn tell_over<R: Eprint>(rt: &R, who: &Who<'_>, is_ended: bool) {
    if !is_ended {
        let _ = eprintln!(rt;
            "echofs: {} reached nobody for too long, and calls no more",
            who.letter()
        );
    }
}

/// No call was answered for so many seconds.
pub fn tell_waits<R: Eprint>(rt: &R, who: &Who<'_>, seconds: u64) {
    let letter = who.letter();
    let _ = eprintln!(rt;
        "echofs: {letter} waits for {}, for {seconds} s now",
        who.addr
    );
}

/// Why it ended, and what may be lost.
pub fn tell_end<R: Eprint>(rt: &R, who: &Who<'_>, answers: &Answers) {
    let letter = who.letter();
    let fault = match &answers.last {
        Ok(_) => {
            let _ = eprintln!(rt; "echofs: {letter} ended: all calls were answered");
            return;
        }
        Err(fault) => fault,
    };
    let _ = match fault {
        NodeFault::Net => {
            eprintln!(rt;
                "echofs: {letter} ended: the link to {} failed, or was closed",
                who.addr
            )
        }
        fault => eprintln!(rt; "echofs: {letter} ended: {fault}"),
    };
    tell_undurable(rt, letter, answers);
}

// Names the operations that aren't known to be durable.
fn tell_undurable<R: Eprint>(rt: &R, letter: char, answers: &Answers) {
    let last = last_operation(answers);
    let first = answers.floor;
    if last == 0 {
        return;
    }
    let _ = if last < first {
        eprintln!(rt; "echofs: {letter}: each operation that was answered is durable")
    } else if last == first {
        eprintln!(rt; "echofs: {letter}: operation {first} isn't known to be durable")
    } else {
        eprintln!(rt; "echofs: {letter}: operations {first} to {last} aren't known to be durable")
    };
}

// The greatest number of an operation that was answered, or 0.
fn last_operation(answers: &Answers) -> u64 {
    let mut last = 0;
    for lane in &answers.lanes {
        for reply in lane {
            if let Some(op) = reply.1 {
                last = last.max(op.0);
            }
        }
    }
    last
}

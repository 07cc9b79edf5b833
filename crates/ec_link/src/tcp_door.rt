// Where links over TCP come in.
use crate::lull::Lull;
use crate::rest::Alarm;
use crate::tcp_bell::{Parts, TcpBell};
use std::alloc::Global;
use std::io::{self, ErrorKind};
use std::net::{Net, TcpListener, TcpStream};

// A socket that nothing can be accepted at any more: it's closed, or no socket, or doesn't listen.
const LASTING: [i32; 4] = [9, 14, 22, 88];

// Descriptors, or memory of the system, are wanting: in this program or in all of them.
const WANTING: [i32; 4] = [12, 23, 24, 105];

// So many links that went before they were accepted are passed over at once.
const MOST_GONE: u32 = 128;

/// An address at which links are accepted.
#[derive(Drop)]
pub struct TcpDoor {
    pub(crate) listener: TcpListener,
    // What the bell of the next link needs. A link that comes has it, whoever takes descriptors meanwhile.
    spare: Option<Parts>,
}

impl TcpDoor {
    // Takes a socket that listens.
    pub(crate) fn over(listener: TcpListener) -> io::Result<TcpDoor> {
        listener.set_nonblocking(true)?;
        Ok(TcpDoor {
            listener,
            spare: None,
        })
    }

    // What the next link's bell needs, where there is room for it.
    pub(crate) fn take_spare<R: Net>(&mut self, rt: &R, alloc: Global) -> Option<Parts> {
        match self.spare.take() {
            Some(parts) => Some(parts),
            None => Parts::new(rt, alloc).ok(),
        }
    }

    pub(crate) fn keep_spare(&mut self, parts: Parts) {
        self.spare = Some(parts);
    }

    // What who accepts waits on.
    pub(crate) fn bell<R: Net>(&self, rt: &R, alloc: Global) -> io::Result<TcpBell> {
        let parts = Parts::new(rt, alloc)?;
        TcpBell::new(parts, &self.listener, Lull::new(alloc)?, Alarm::new(alloc)?)
    }
}

// Why no socket came.
enum Absence {
    /// None is there, or there is no room for it now.
    Now,
    /// One was there, and has gone.
    Gone,
    /// No further one can come.
    Lasting,
}

fn why_none(fault: &io::Error) -> Absence {
    if fault.kind() == ErrorKind::WouldBlock {
        return Absence::Now;
    }
    match fault.raw_os_error() {
        Some(code) if WANTING.contains(&code) => Absence::Now,
        Some(code) if LASTING.contains(&code) => Absence::Lasting,
        _ => Absence::Gone,
    }
}

// The next socket at the door, where one is there.
pub(crate) fn take_socket(listener: &TcpListener) -> io::Result<Option<TcpStream>> {
    for _ in 0..MOST_GONE {
        match listener.accept() {
            Ok((stream, _)) => return Ok(Some(stream)),
            Err(fault) => match why_none(&fault) {
                Absence::Now => return Ok(None),
                Absence::Gone => {}
                Absence::Lasting => return Err(fault),
            },
        }
    }
    Ok(None)
}

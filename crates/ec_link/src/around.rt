// What a link, a net and a job may reach outside of the program.
use std::net::{Net, TcpListener, TcpStream};
use std::sync::Wait;
use std::thread::Threads;
use std::time::Clock;

/// A runtime that waits, tells the time, reaches the network, starts threads and has memory, and that threads may share.
pub trait Around: AllocGlobal
    + Wait
    + Clock
    + Net<Listener = TcpListener, Stream = TcpStream>
    + Threads
    + Sync {}

impl<
    R: AllocGlobal
        + Wait
        + Clock
        + Net<Listener = TcpListener, Stream = TcpStream>
        + Threads
        + Sync,
> Around for R {}

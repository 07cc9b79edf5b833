// The standard streams.
use std::fs::File;
use std::io;
use std::os::fd::{AsFd, IntoRawFd};

// What the system answers of a descriptor that isn't open.
const NOT_OPEN: i32 = 9;

/// Opens the null device in the place of each standard stream that is closed, and leaves it open: what is opened later is no standard stream.
/// The error is the system's, where the null device can't be opened.
pub fn open_streams(rt: HostRuntime) -> io::Result<()> {
    let closed = [
        is_closed(&rt.stdin()),
        is_closed(&rt.stdout()),
        is_closed(&rt.stderr()),
    ];
    for is_closed in closed {
        if is_closed {
            open_null(rt)?;
        }
    }
    Ok(())
}

// A descriptor that is open can be duplicated, or there is no room for another one.
fn is_closed<F: AsFd>(stream: &F) -> bool {
    match stream.as_fd().try_clone_to_owned() {
        Ok(_) => false,
        Err(error) => error.raw_os_error() == Some(NOT_OPEN),
    }
}

// A file that is opened gets the first descriptor that is closed.
fn open_null(rt: HostRuntime) -> io::Result<()> {
    let null = File::options()
        .read(true)
        .write(true)
        .open(&rt, "/dev/null")?;
    let _ = null.into_raw_fd();
    Ok(())
}

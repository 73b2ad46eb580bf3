//! The standard streams.
use std::fs::File;
use std::os::fd::{AsRawFd, IntoRawFd};

/// How many there are. Their numbers are those below that.
const STREAMS: i32 = 3;

/// Has each standard stream that was closed be `/dev/null`. Else a file or a socket that is opened
/// later would get its number, and what is printed.
pub fn hold_standard_streams(rt: &HostRuntime) {
    for _ in 0..STREAMS {
        let null = File::options().read(true).write(true).open(rt, "/dev/null");
        let held = null.ok().filter(|file| file.as_raw_fd() < STREAMS);
        let _ = held.map(|file| file.into_raw_fd());
    }
}

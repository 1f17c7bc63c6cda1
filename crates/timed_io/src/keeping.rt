// How the system keeps connections.
use libc::net::{
    IPPROTO_TCP, SO_KEEPALIVE, SOL_SOCKET, TCP_KEEPCNT, TCP_KEEPIDLE, TCP_KEEPINTVL, TCP_NODELAY,
    TCP_USER_TIMEOUT, setsockopt,
};
use std::os::fd::AsRawFd;
use std::time::Duration;

/// For how long nothing may come before the system asks whether the other side is there, in
/// seconds.
const IDLE_SECONDS: i32 = 2;

/// From one such question to the next, in seconds.
const BETWEEN_SECONDS: i32 = 1;

/// How many of them may go unanswered.
const QUESTIONS: i32 = 3;

/// Has the system ask whether the other side of a silent connection is still there, and end the
/// connection, with an error, where five seconds have brought no sign of it (`SO_KEEPALIVE` of
/// tcp(7)). The connections that a listening socket gives have it from that. A socket that can't be
/// given it is left as it was.
pub fn ask_after<S: AsRawFd>(socket: &S) {
    let file = socket.as_raw_fd();
    unsafe {
        setsockopt(file, SOL_SOCKET, SO_KEEPALIVE, &number(1), 4);
        setsockopt(file, IPPROTO_TCP, TCP_KEEPIDLE, &number(IDLE_SECONDS), 4);
        setsockopt(
            file,
            IPPROTO_TCP,
            TCP_KEEPINTVL,
            &number(BETWEEN_SECONDS),
            4,
        );
        setsockopt(file, IPPROTO_TCP, TCP_KEEPCNT, &number(QUESTIONS), 4);
    }
}

/// Has the system end a connection, with an error, whose other side takes nothing of what was sent
/// for so many milliseconds (`TCP_USER_TIMEOUT` of tcp(7)). The connections that a listening socket
/// gives have it from that. A socket that can't be given it is left as it was.
pub fn end_untaken<S: AsRawFd>(socket: &S, most: Duration) {
    let millis = i32::try_from(most.as_millis()).unwrap_or(i32::MAX);
    unsafe {
        setsockopt(
            socket.as_raw_fd(),
            IPPROTO_TCP,
            TCP_USER_TIMEOUT,
            &number(millis),
            4,
        );
    }
}

/// Has the system send at once what is written, and not wait until the other side has acknowledged
/// what was sent before (`TCP_NODELAY` of tcp(7)). The connections that a listening socket gives
/// have it from that. A socket that can't be given it is left as it was.
pub fn send_at_once<S: AsRawFd>(socket: &S) {
    unsafe {
        setsockopt(socket.as_raw_fd(), IPPROTO_TCP, TCP_NODELAY, &number(1), 4);
    }
}

// A number as an option has it, in its first four bytes.
fn number(value: i32) -> [u8; 16] {
    let mut bytes = [0u8; 16];
    bytes[..4].copy_from_slice(&value.to_ne_bytes());
    bytes
}

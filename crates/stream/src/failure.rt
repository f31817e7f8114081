// What is said on standard error where reading, writing or opening fails.
use std::io::{Error, ErrorKind, Print, Write};

// Reading or writing failed, which has been said on standard error.
#[derive(Clone, Copy, Debug, PartialEq, Eq)]
pub struct Failed;

// As far as an error's words are said: the system's longest text has 49 bytes.
const MAX_WORDS: usize = 128;

// The words, without the number that `io::Error` puts behind the system's own, as in
// `No such file or directory (os error 2)`.
fn reason(words: &[u8]) -> &str {
    match std::str::from_utf8(words) {
        Ok(text) => text
            .split_once(" (os error ")
            .map_or(text, |(reason, _)| reason),
        Err(_) => "",
    }
}

// Says what failed, as the caller names it, and why. Nothing can be done where standard error takes no more.
pub fn say(rt: &HostRuntime, what: &[u8], error: &Error) {
    let mut words = [0u8; MAX_WORDS];
    let mut space = &mut words[..];
    let _ = write!(space, "{error}");
    let len = MAX_WORDS.saturating_sub(space.len());
    let to = rt.stderr();
    let _ = to.write_all(what);
    let _ = to.write_all(b": ");
    let _ = to.write_all(reason(&words[..len]).as_bytes());
    let _ = to.write_all(b"\n");
}

// Says that a call failed, unless a signal interrupted it, which is no failure.
pub fn has_failed(rt: &HostRuntime, what: &[u8], error: &Error) -> Result<(), Failed> {
    if error.kind() == ErrorKind::Interrupted {
        return Ok(());
    }
    say(rt, what, error);
    Err(Failed)
}

// The inputs of a run: standard input, or files by name, one after the other.
ghost use Rattle.std.specs.Prelude.{◌≤◌, length};
ghost use Rattle.stream.specs.Run.{Runs};
ghost use Rattle.programs.specs.Exit.{Serves, Serving, inputs_of};
ghost use Rattle.programs.specs.Lines.{max_path};

use crate::about::Command;
use crate::line::Line;
use runner::run;
use std::env::FillError;
use std::fs::File;
use std::io;
use std::io::{Error, Print, Read};
use std::rt::Env;
use stream::{Labels, Stream, say};

// The numbers of the system's errors, whose words are said.
const INVALID_ARGUMENT: i32 = 22;

const NAME_TOO_LONG: i32 = 36;

const NOT_TEXT: i32 = 84;

#[derive(Clone, Copy)]
pub struct Path;

impl Path {
    // The longest name of a file. The system takes one byte less.
    pub const MAX_LEN: usize = 4096;
}

// Says what failed, and why, by the system's own words.
fn say_failure<P: Command>(rt: &HostRuntime, subject: &[u8], error: &Error)
    requires { length subject.now ≤ max_path }
{
    say(rt, Line::label(P::name(), subject).text(), error);
}

// The run over one input, which messages call by its name; the first envelope that is refused is told.
fn serve<P: Command, R: Read>(rt: &HostRuntime, source: &mut R, subject: &[u8], s: Stream) -> Stream
    requires { length subject.now ≤ max_path }
    ensures { Runs P.filter s result }
{
    let mut reading = Line::label(P::name(), subject);
    let writing = Line::label(P::name(), b"standard output");
    let labels = Labels {
        reading: reading.text(),
        writing: writing.text(),
    };
    let r = run::<P, R>(rt, source, s, labels);
    if let (None, Some(refused)) = (s.refusal, r.refusal) {
        reading.refuse(refused);
        let _ = rt.stderr().write_all(reading.text());
    }
    r
}

// Why an argument is not in its buffer. No `From`, since both types are std's.
fn not_filled(error: FillError) -> Error {
    Error::from_raw_os_error(match error {
        FillError::TooLong => NAME_TOO_LONG,
        FillError::NotPresent => INVALID_ARGUMENT,
    })
}

// The file of this name, open. `std` takes none that is not UTF-8.
fn open(rt: &HostRuntime, path: &[u8]) -> io::Result<File> {
    match std::str::from_utf8(path) {
        Ok(path) => File::open(rt, path),
        Err(_) => Err(Error::from_raw_os_error(NOT_TEXT)),
    }
}

// The run over the file that argument i names.
fn serve_file<P: Command>(rt: &HostRuntime, i: usize, mut s: Stream) -> Stream
    ensures { Serves P.filter s result }
{
    let mut path = [0u8; Path::MAX_LEN];
    let (subject, error) = match rt.arg(i, &mut path) {
        Err(error) => (&b"argument"[..], not_filled(error)),
        Ok(n) => match open(rt, &path[..n]) {
            Err(error) => (&path[..n], error),
            Ok(mut source) => return serve::<P, File>(rt, &mut source, &path[..n], s),
        },
    };
    say_failure::<P>(rt, subject, &error);
    s.fail();
    s
}

// The run over the files that arguments 1 to count - 1 name, or over standard input where there are none.
pub fn serve_all<P: Command>(rt: &HostRuntime, count: usize) -> Stream
    ensures { Serving P.filter (inputs_of count) result }
{
    let mut s = Stream::new();
    if count < 2 {
        return serve::<P, _>(rt, &mut rt.stdin(), b"standard input", s);
    }
    for i in 1..count {
        if s.stopped || s.failed {
            return s;
        }
        s = serve_file::<P>(rt, i, s);
    }
    s
}

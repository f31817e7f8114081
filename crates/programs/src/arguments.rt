// What the arguments ask for.
ghost use Rattle.std.specs.Prelude.{◌≡◌, ◌≤◌, length, take};
ghost use Rattle.programs.specs.Arguments.{Asks, argument_of};

use crate::sources::Path;
use std::env::FillError;
use std::rt::Env;
use wire::bytes::same;

// One argument: the name of a file, a request for a text, or an option that there is not.
#[derive(Clone, Copy, Debug, PartialEq, Eq)]
pub enum Argument {
    File,
    Help,
    Version,
    Unknown,
}

// All of them: a run, a text, or the first that is an option that there is not.
#[derive(Clone, Copy, Debug, PartialEq, Eq)]
pub enum Request {
    Run,
    Help,
    Version,
    Unknown(usize),
}

// What begins with `-` is no file's name.
#[tactic(auto, using(crate::proofs::Requests::by_word), unfolding(ascii::specs::Text::ascii))]
fn judged(word: &[u8]) -> Argument
    ensures { result ≡ argument_of word.now }
{
    match word {
        [b'-', ..] => {
            if same(word, b"--help") {
                Argument::Help
            } else if same(word, b"--version") {
                Argument::Version
            } else {
                Argument::Unknown
            }
        }
        _ => Argument::File,
    }
}

// Puts argument i at the start of a buffer, or as much of it as the buffer takes.
pub fn put_argument(rt: &HostRuntime, i: usize, out: &mut [u8]) -> usize
    ensures within { result ≤ length out.new }
    ensures put { result ≡ length (take result out.new) }
{
    match rt.arg(i, out) {
        Ok(n) => n,
        Err(FillError::TooLong) => out.len(),
        Err(FillError::NotPresent) => 0,
    }
}

// How many arguments there are, the program's own name among them: they end at the first that is not there.
pub fn count(rt: &HostRuntime) -> usize {
    (0..usize::MAX)
        .find(|n| matches!(rt.arg(*n, &mut []), Err(FillError::NotPresent)))
        .unwrap_or(usize::MAX)
}

// The first of so many arguments that is no file's name decides. Number 0 is the program's own name.
pub fn requested(rt: &HostRuntime, count: usize) -> Request
    ensures { Asks count result }
{
    for i in 1..count {
        let mut word = [0u8; Path::MAX_LEN];
        let n = put_argument(rt, i, &mut word);
        match judged(&word[..n]) {
            Argument::File => {}
            Argument::Help => return Request::Help,
            Argument::Version => return Request::Version,
            Argument::Unknown => return Request::Unknown(i),
        }
    }
    Request::Run
}

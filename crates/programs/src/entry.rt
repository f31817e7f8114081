// What the programs' `main` calls: the answer is the exit status.
ghost use Rattle.std.specs.Prelude.{◌≡◌};
ghost use Rattle.programs.specs.Exit.{Answers, Performs, status_of};

use crate::about::{Command, print};
use crate::arguments::{Request, count, put_argument, requested};
use crate::line::Line;
use crate::sources::{Path, serve_all};
use std::io::Print;
use stream::Stream;

// 2 where something failed, 1 where an envelope was refused, whether that stopped the run or not, else 0.
#[tactic(auto, unfolding(crate::specs::Exit::status_of, format::specs::Choice::pick))]
fn status(s: Stream) -> u8
    ensures { result ≡ status_of s }
{
    if s.failed {
        return 2;
    }
    u8::from(s.stopped || s.refusal.is_some())
}

// Says that argument i is an option that there is not.
fn say_unknown<P: Command>(rt: &HostRuntime, i: usize) -> u8
    ensures { result ≡ 2 }
{
    let mut word = [0u8; Path::MAX_LEN];
    let n = put_argument(rt, i, &mut word);
    let line = Line::unknown_option(P::name(), &word[..n]);
    let _ = rt.stderr().write_all(line.text());
    2
}

// Does what the arguments ask for.
fn perform<P: Command>(rt: &HostRuntime, request: Request, count: usize) -> u8
    ensures { Performs P.filter request count result }
{
    match request {
        Request::Run => status(serve_all::<P>(rt, count)),
        Request::Help => print::<P>(rt, P::help()),
        Request::Version => print::<P>(rt, P::version()),
        Request::Unknown(i) => say_unknown::<P>(rt, i),
    }
}

// The program, from its arguments on.
pub fn start<P: Command>(rt: &HostRuntime) -> u8
    ensures { Answers P.filter result }
{
    let arguments = count(rt);
    perform::<P>(rt, requested(rt, arguments), arguments)
}

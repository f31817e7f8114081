// The program `listing`, a crate of its own, as each program is: what it does and answers is `programs::start`.
#![tactic(auto)]

use programs::{Listing, start};
use std::process::ExitCode;

fn main(rt: HostRuntime) -> ExitCode {
    ExitCode::from(start::<Listing>(&rt))
}

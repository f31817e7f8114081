// The program `tidy`, a crate of its own, as each program is: what it does and answers is `programs::start`.
#![tactic(auto)]

use programs::{Tidy, start};
use std::process::ExitCode;

fn main(rt: HostRuntime) -> ExitCode {
    ExitCode::from(start::<Tidy>(&rt))
}

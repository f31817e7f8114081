// What the programs print of themselves.
ghost use Rattle.std.specs.Prelude.{◌≤◌, length};
ghost use Rattle.programs.specs.Exit.{Prints};
ghost use Rattle.programs.specs.Lines.{max_name};

use crate::line::Line;
use runner::{Listing, Program, Tidy};
use stream::put;

// A program, with what it says of itself.
pub trait Command: Program {
    // Its name, which messages begin with.
    fn name() -> &'static [u8]
        ensures { length result.now ≤ max_name };

    fn help() -> &'static [u8];

    fn version() -> &'static [u8];
}

impl Command for Listing {
    fn name() -> &'static [u8] {
        b"listing"
    }

    fn help() -> &'static [u8] {
        b"usage: listing [FILE]...
Prints the rows of the nachricht messages in each FILE, or in standard input if none is named.

  --help     prints this
  --version  prints the version

Exit status: 0 if every message is good, 1 if one is refused, 2 if an argument is wrong or reading or writing fails.
"
    }

    fn version() -> &'static [u8] {
        b"listing 0.1.0\n"
    }
}

impl Command for Tidy {
    fn name() -> &'static [u8] {
        b"tidy"
    }

    fn help() -> &'static [u8] {
        b"usage: tidy [FILE]...
Copies the nachricht messages of each FILE, or of standard input if none is named, to standard output, each in its
canonical encoding. It ends at the first that is refused.

  --help     prints this
  --version  prints the version

Exit status: 0 if every message is good, 1 if one is refused, 2 if an argument is wrong or reading or writing fails.
"
    }

    fn version() -> &'static [u8] {
        b"tidy 0.1.0\n"
    }
}

// Prints a text on standard output.
pub fn print<P: Command>(rt: &HostRuntime, text: &[u8]) -> u8
    ensures { Prints result }
{
    match put(rt, text, Line::label(P::name(), b"standard output").text()) {
        Ok(()) => 0,
        Err(_) => 2,
    }
}

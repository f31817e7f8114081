// Lines on standard error, as they are made.
ghost use Rattle.std.specs.Prelude.{◌≡◌, ◌≤◌, length};
ghost use Rattle.programs.specs.Lines.{line_capacity, max_label, max_name, max_path};

use crate::sources::Path;
use messages::{Label, Refusal, put_label, put_refusal, put_unknown_option};
use stream::Refused;

// The line is the first bytes, so many of them.
#[derive(Drop)]
pub struct Line {
    bytes: [u8; Line::CAPACITY],
    len: usize,
    ghost within: { (length bytes ≡ line_capacity) × (len ≤ line_capacity) },
}

impl Line {
    ghost use Rattle.std.specs.Prelude.{◌≡◌, ◌++◌};
    ghost use Rattle.format.specs.Error.{code_of};
    ghost use Rattle.messages.specs.Text.{label, refusal, unknown_option};
    ghost use Rattle.programs.specs.Said.{said};

    // The longest name of a program.
    pub const MAX_NAME: usize = 16;

    // A label of any file, and a refusal behind it.
    pub const CAPACITY: usize = Line::MAX_NAME + Label::BETWEEN + Path::MAX_LEN + Refusal::MAX_LEN;

    // The program's name, and what it speaks of.
    #[tactic(auto, using(crate::proofs::Lines::label_fits, crate::proofs::Lines::label_short, crate::proofs::Lines::put_whole))]
    pub fn label(name: &[u8], subject: &[u8]) -> Line
        requires { (length name.now ≤ max_name) × (length subject.now ≤ max_path) }
        ensures short { result.len ≤ max_label }
        ensures says { said result ≡ label name.now subject.now }
    {
        let mut bytes = [0u8; Line::CAPACITY];
        let len = put_label(name, subject, &mut bytes);
        Line { bytes, len }
    }

    // An option that there is not.
    #[tactic(auto, using(crate::proofs::Lines::unknown_fits, crate::proofs::Lines::put_whole))]
    pub fn unknown_option(name: &[u8], option: &[u8]) -> Line
        requires { (length name.now ≤ max_name) × (length option.now ≤ max_path) }
        ensures { said result ≡ unknown_option name.now option.now }
    {
        let mut bytes = [0u8; Line::CAPACITY];
        let len = put_unknown_option(name, option, &mut bytes);
        Line { bytes, len }
    }

    // Puts why an envelope was refused behind a label.
    pub fn refuse(&mut self, refused: Refused)
        requires { self.old.len ≤ max_label }
        ensures { said self.new ≡ said self.old ++ refusal refused.envelope (code_of refused.failure.error) refused.failure.place }
    {
        let failure = refused.failure;
        let at = self.len;
        let more = put_refusal(
            refused.envelope,
            failure.error.code(),
            failure.place,
            &mut self.bytes[at..],
        );
        self.len = at + more;
    }

    pub fn text(&self) -> &[u8]
        ensures { result.now ≡ said self.now }
    {
        &self.bytes[..self.len]
    }
}

// The start of a message, written at the start of a buffer; what is answered is how many bytes were written.
ghost use Rattle.std.specs.Prelude.{◌≤◌, length};
ghost use Rattle.wire.specs.Output.{Puts};
ghost use Rattle.messages.specs.Text.{label, unknown_option};

use wire::output::copy;

#[derive(Clone, Copy)]
pub struct Label;

impl Label {
    const COLON: [u8; 2] = *b": ";
    // What stands between the program's name and what it speaks of.
    pub const BETWEEN: usize = Label::COLON.len();
}

// The program's name, and what it speaks of.
pub fn put_label(name: &[u8], subject: &[u8], out: &mut [u8]) -> usize
    requires { length (label name.now subject.now) ≤ length out.old }
    ensures { Puts (label name.now subject.now) result out.old out.new }
{
    let a = copy(out, name);
    let b = a + copy(&mut out[a..], b": ");
    b + copy(&mut out[b..], subject)
}

// An option that there is not: the whole line.
pub fn put_unknown_option(name: &[u8], option: &[u8], out: &mut [u8]) -> usize
    requires { length (unknown_option name.now option.now) ≤ length out.old }
    ensures { Puts (unknown_option name.now option.now) result out.old out.new }
{
    let a = put_label(name, option, out);
    a + copy(&mut out[a..], b": unknown option, try --help\n")
}

// Reading a bundle into a table of rows: checked first, then filled in.
ghost use Rattle.std.specs.Prelude.{◌≡◌, ◌≤◌, min};
ghost use Rattle.format.specs.declared.error.Mode.TheVariants.{Lenient};
ghost use Rattle.format.specs.Limits.{max_rows};
ghost use Rattle.format.specs.Reading.{options, counts};
ghost use Rattle.reader.specs.Answers.{rows_in};
ghost use Rattle.reader.specs.Filling.{Fillable, Fills};
ghost use Rattle.reader.specs.Promises.{Read};

use crate::checking::walk;
use crate::fill::fill;
use format::{Bundle, Failure, Mode, Row, SymbolTable};

// Fills the first n rows, from an empty table of entries.
fn filled_in(bytes: &[u8], rows: &mut [Row], n: usize)
    requires { Fillable bytes.now rows.old n }
    ensures { Fills bytes.now n rows.old rows.new }
{
    let mut table = SymbolTable::new();
    fill(bytes, &mut table, &mut rows[..n]);
}

// Reads a bundle leniently.
pub fn read(bytes: &[u8], rows: &mut [Row]) -> Result<Bundle, Failure>
    ensures { Read Lenient bytes.now rows.old result rows.new }
{
    read_in(bytes, Mode::default(), rows)
}

// Reads a bundle: its counts, with its rows in the first places of the table; on an error no row is changed.
pub fn read_in(bytes: &[u8], mode: Mode, rows: &mut [Row]) -> Result<Bundle, Failure>
    ensures { Read mode bytes.now rows.old result rows.new }
{
    let bundle = walk(bytes, mode, rows.len().min(Row::MAX_COUNT))?;
    filled_in(bytes, rows, bundle.rows);
    Ok(bundle)
}

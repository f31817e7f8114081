// The second pass of reading: the rows of a bundle that was checked, one by one.
ghost use Rattle.std.specs.Prelude.{◌≡◌, length};
ghost use Rattle.format.specs.Limits.{max_entries};
ghost use Rattle.reader.specs.Filling.{Fillable, Fills};

use format::{Row, SymbolTable};
use walk::Walked;

// Fills the rows, as many as the bundle has.
pub fn fill(s: &[u8], table: &mut [u64; SymbolTable::MAX_ENTRIES], rows: &mut [Row])
    requires { Fillable s.now rows.old (length rows.old) × (length table.old ≡ max_entries) }
    ensures { Fills s.now (length rows.old) rows.old rows.new }
{
    let mut w = Walked::new();
    for row in rows {
        w = walk::next(s, table, w);
        let r = w.row;
        // by its fields: as a whole it would carry its padding round the loop, and reading boards took 1.85 times as long
        *row = Row::new(r.kind, r.number, r.start);
    }
}

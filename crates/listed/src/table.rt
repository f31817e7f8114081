// A bundle read into a table of rows that goes by value.
ghost use Rattle.listed.specs.Promises.{Tabled};

use format::{Bundle, Failure, Row};

// What reading answers, and the rows; those after the bundle's are blank.
#[derive(Drop)]
pub struct Table {
    pub answer: Result<Bundle, Failure>,
    pub rows: [Row; Row::MAX_COUNT],
}

impl Table {
    pub fn read(bundle: &[u8]) -> Table
        ensures { Tabled bundle.now result }
    {
        let mut rows = [Row {
            kind: 0,
            number: 0,
            start: 0,
        }; Row::MAX_COUNT];
        let answer = reader::read(bundle, &mut rows);
        Table { answer, rows }
    }
}

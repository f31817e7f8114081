// A failure (document 01: a refusal): what each call that is refused answers.
ghost use Rattle.std.specs.Prelude.{◌≡◌};
ghost use Rattle.format.specs.Answer.{fail, failure, failure_beside, sided};

use crate::error::Error;

// The error and its place. Of joining the side too: 1 or 2 for the bundle that does not read, else 0. Of writing a text
// that is not UTF-8 the row too, since the place is an offset then; else 0. Side and row are the numbers of the C interface.
#[derive(Clone, Copy, Debug, PartialEq, Eq)]
pub struct Failure {
    pub error: Error,
    pub place: usize,
    pub side: u8,
    pub row: usize,
}

impl Failure {
    pub fn new(error: Error, place: usize) -> Failure
        ensures { result ≡ failure error place }
    {
        Failure::beside(error, place, 0)
    }

    // With a row beside the place.
    pub fn beside(error: Error, place: usize, row: usize) -> Failure
        ensures { result ≡ failure_beside error place row }
    {
        Failure {
            error,
            place,
            side: 0,
            row,
        }
    }

    // The same, on one side of a join.
    pub fn on(self, side: u8) -> Failure
        ensures { result ≡ sided side self }
    {
        let error = self.error;
        Failure {
            error,
            place: self.place,
            side,
            row: self.row,
        }
    }
}

// The answer of a call that is refused, whatever it answers else.
#[tactic(auto, unfolding(crate::specs::Answer::fail))]
pub fn fail<T>(error: Error, place: usize) -> Result<T, Failure>
    ensures { result ≡ fail error place }
{
    Err(Failure::new(error, place))
}

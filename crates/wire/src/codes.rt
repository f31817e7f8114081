// Integers and containers by the code of their header.
ghost use Rattle.std.specs.Prelude.{◌≡◌, ◌&&◌, leb};
ghost use Rattle.format.specs.Code as Code;
ghost use Rattle.wire.specs.Numbers.{number_of};

use format::Header;

// An integer?
pub fn is_integer(code: u8) -> bool
    ensures { result ≡ (leb Code.positive code && leb code Code.negative) }
{
    (Header::POSITIVE..=Header::NEGATIVE).contains(&code)
}

// The number of an integer or a container with a payload.
#[tactic(auto, unfolding(crate::specs::Numbers::number_of, format::specs::Choice::pick))]
pub fn number_of(code: u8, p: u64) -> u64
    ensures { result ≡ number_of code p }
{
    // the payload first: signs of integers cannot be foretold
    if p == Header::NEGATIVE_ALIAS && code == Header::NEGATIVE {
        return Header::NEGATIVE_ALIAS - 1;
    }
    p
}

// Bytes compared.
ghost use Rattle.std.specs.Prelude.{◌≡◌};
ghost use Rattle.format.specs.Names.{same};

// Have two slices the same bytes? By a loop: with `a == b`, which calls a function for what is longer than a word,
// looking names up grew too large for its callers, and strict reading of names took 1.1 times as long.
pub fn same(a: &[u8], b: &[u8]) -> bool
    ensures { result ≡ same a.now b.now }
{
    if a.len() != b.len() {
        return false;
    }
    for (i, x) in a.iter().enumerate() {
        if *x != b[i] {
            return false;
        }
    }
    true
}

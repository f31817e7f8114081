// Whether a result fits.
ghost use Rattle.std.specs.Prelude.{◌≡◌, min, ltb};
ghost use Rattle.format.specs.Limits.{max_bytes};

use format::Bundle;

// Is a result too long for a bundle or for the buffer?
pub fn is_over(size: usize, capacity: usize) -> bool
    ensures { result ≡ ltb (min max_bytes capacity) size }
{
    Bundle::MAX_BYTES.min(capacity) < size
}

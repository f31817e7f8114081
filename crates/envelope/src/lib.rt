// The envelope around a bundle: opened as a part of the bytes, closed into a buffer.
#![tactic(auto)]

mod closing;
mod opening;

pub use closing::close;
pub use opening::{bundle_len, missing, open};

pub const VERSION: u8 = 1;

// The bytes of the length.
pub const LENGTH_SIZE: usize = 2;

// The bytes before the bundle: the length and the version.
pub const OVERHEAD: usize = LENGTH_SIZE + 1;

// The longest envelope.
pub const MAX_BYTES: usize = OVERHEAD + format::Bundle::MAX_BYTES;

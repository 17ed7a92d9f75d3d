//! Room in a buffer.
ghost use Rattle.std.specs.Prelude.{◌≡◌, ◌+◌, nat_le};

/// Whether a buffer of a length has room for so many entries from a position on.
pub fn has_room(length: usize, at: usize, need: usize) -> bool
    ensures { result ≡ nat_le (at + need) length }
{
    need <= length && at <= length - need
}

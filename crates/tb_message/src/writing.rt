//! Bytes, written over others.
ghost use Rattle.std.specs.Prelude.{◌≡◌, ◌+◌, ◌≤◌, ◌++◌, length, take, drop};

/// Writes more over the bytes from a place on.
pub(crate) fn write_at(bytes: &mut [u8], at: usize, more: &[u8])
    requires { at + length more.now ≤ length bytes.old }
    ensures { bytes.new ≡ take at bytes.old ++ (more.now ++ drop (at + length more.now) bytes.old) }
{
    let (_, rest) = bytes.split_at_mut(at);
    let (front, _) = rest.split_at_mut(more.len());
    front.copy_from_slice(more);
}

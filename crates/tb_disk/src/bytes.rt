//! Writes over bytes in memory that are within their room.
ghost use Rattle.std.specs.Prelude.{◌≡◌, ◌+◌, ◌≤◌, length, vec_len, vec_capacity};
ghost use Rattle.tb_disk.specs.Steps.{over};
ghost use Rattle.tb_disk.specs.Notes.{torn_over};

/// Writes bytes over what is there, and past the end.
pub(crate) fn put(contents: &mut Vec<u8>, place: usize, bytes: &[u8])
    requires place { place ≤ vec_len contents.old }
    requires room { place + length bytes.now ≤ vec_capacity contents.old }
    ensures after { contents.new.items ≡ over place bytes.now contents.old.items }
    ensures capacity { vec_capacity contents.old ≤ vec_capacity contents.new }
{
    if bytes.len() <= contents.len() - place {
        contents[place..place + bytes.len()].copy_from_slice(bytes);
    } else {
        contents.truncate(place);
        contents.extend_from_slice(bytes).unwrap();
    }
}

/// Sets the bytes of a range that are there to one byte.
pub(crate) fn tear(contents: &mut Vec<u8>, place: usize, size: usize, torn: u8)
    requires place { place ≤ vec_len contents.old }
    ensures after { contents.new.items ≡ torn_over place size torn contents.old.items }
    ensures capacity { vec_capacity contents.old ≤ vec_capacity contents.new }
{
    let count = size.min(contents.len() - place);
    contents[place..place + count].fill(torn);
}

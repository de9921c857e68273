//! Rows of one key, from the last of them back to the first.
ghost use Rattle.std.specs.Prelude.{◌≡◌, ◌+◌, ◌<◌, ◌≤◌, map, IfOk};
ghost use Rattle.std.specs.List.{filter};
ghost use Rattle.tb_index.specs.Indexes.{AreLinks, end_of};

use crate::keys::KeyOf;
use std::alloc::Global;
use tb_units::OutOfMemory;

/// The rows of the key, in the order of adding, where the last of them is the end of so many.
pub fn rows_up_to<T: Copy + Drop, In: KeyOf<T>>(
    alloc: Global,
    rows: &[T],
    links: &[usize],
    key: &In::Key,
    end: usize,
) -> Result<Vec<T>, OutOfMemory>
    requires links { AreLinks In.Key.eq (map In.key_of rows.now) links.now }
    requires end { end ≡ end_of In.Key.eq key.now (map In.key_of rows.now) }
    ensures { IfOk result (λ found. found.items ≡ filter (λ row. In.Key.eq (In.key_of row) key.now) rows.now) }
{
    let mut found = Vec::new(alloc);
    let mut end = end;
    while end > 0 {
        let row = rows[end - 1];
        found.push(row)?;
        end = links[end - 1];
    }
    found.reverse();
    Ok(found)
}

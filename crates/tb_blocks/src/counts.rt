//! The numbers of elements before blocks, in two levels: before each group of blocks, and within the group before each
//! of its blocks. Neither an add nor a place walks all of them.
ghost use Rattle.std.specs.Prelude.{◌≡◌, ℕ, ◌+◌, ◌-◌, ◌*◌, ◌^◌, ◌<◌, ◌≤◌, [], length, slice_index, slice_index_or, vec_capacity};
ghost use Rattle.tb_blocks.specs.Sizes.{block_size, most_blocks};
ghost use Rattle.tb_blocks.specs.Rows.{AreCountedTo, AreCounts, IsRaised};

use crate::block::Block;

/// The blocks of a group.
pub const GROUP: usize = 32;

/// Adds one to each number from one place on and before another.
pub fn raise(numbers: &mut Vec<usize>, from: usize, to: usize)
    requires order { from ≤ to }
    requires within { to ≤ length numbers.old.items }
    requires fits { (k : ℕ) → from ≤ k → k < to → slice_index numbers.old.items k + 1 < 2 ^ 64 }
    ensures raised { IsRaised from to numbers.old.items numbers.new.items }
    ensures capacity { vec_capacity numbers.new ≡ vec_capacity numbers.old }
{
    for at in from..to {
        numbers[at] += 1;
    }
}

/// Takes one from each number from one place on and before another.
pub fn lower(numbers: &mut Vec<usize>, from: usize, to: usize)
    requires order { from ≤ to }
    requires within { to ≤ length numbers.old.items }
    requires fits { (k : ℕ) → from ≤ k → k < to → 0 < slice_index numbers.old.items k }
    ensures lowered { IsRaised from to numbers.new.items numbers.old.items }
    ensures capacity { vec_capacity numbers.new ≡ vec_capacity numbers.old }
{
    for at in from..to {
        numbers[at] -= 1;
    }
}

/// Counts the blocks from a group on, before which so many elements stand. Those before it are counted.
pub fn count_from<T: Copy + Drop>(
    blocks: &[Block<T>],
    starts: &mut Vec<usize>,
    groups: &mut Vec<usize>,
    from: usize,
    elements: usize,
)
    requires small { (k : ℕ) → length (slice_index_or blocks.now k []) ≤ block_size }
    requires few { length blocks.now ≤ most_blocks }
    requires room { length blocks.now ≤ vec_capacity starts.old }
    requires groups_room { length blocks.now ≤ vec_capacity groups.old }
    requires counted { AreCountedTo from elements groups.old.items starts.old.items blocks.now }
    ensures counts { AreCounts groups.new.items starts.new.items blocks.now }
    ensures capacity { vec_capacity starts.new ≡ vec_capacity starts.old }
    ensures groups_capacity { vec_capacity groups.new ≡ vec_capacity groups.old }
{
    let first = from * GROUP;
    starts.truncate(first);
    groups.truncate(from);
    let (mut total, mut group) = (elements, elements);
    for at in first..blocks.len() {
        if at % GROUP == 0 {
            group = total;
            groups.push_reserved(group);
        }
        starts.push_reserved(total - group);
        total += blocks[at].len();
    }
}

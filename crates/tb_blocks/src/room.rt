//! How many blocks a number of adds can need, and how they are taken.
ghost use Rattle.std.specs.Prelude.{◌≡◌, ℕ, ◌+◌, ◌*◌, ◌<◌, ◌≤◌, List, [], length, min, OnOk, slice_index_or, vec_capacity};
ghost use Rattle.tb_blocks.specs.Sizes.{block_size, half_size, most_blocks, progress_of};
ghost use Rattle.tb_blocks.specs.Lists.{HasRoom, IsPace};

use crate::block::{BLOCK, Block, HALF};
use crate::pool::Pool;
use crate::rows::Rows;
use std::alloc::{AllocError, Global};

/// The most adds that are made sure at once.
pub const MOST_ADDS: usize = 1099511627776;

/// The most blocks of a list.
pub const MOST_BLOCKS: usize = 4294967296;

/// Sees that so many blocks are free.
pub fn fill<T: Copy + Drop>(
    rows: &mut Rows<T>,
    pool: &mut Pool<T>,
    wanted: usize,
    alloc: Global,
) -> Result<(), AllocError>
    requires room { HasRoom (length rows.old.blocks.items) (length pool.old.free.items)
        rows.old.room (vec_capacity pool.old.free) }
    ensures filled { OnOk result (wanted ≤ length pool.new.free.items) }
    ensures same { rows.new.blocks.items ≡ rows.old.blocks.items }
    ensures free { length pool.old.free.items ≤ length pool.new.free.items }
    ensures room { HasRoom (length rows.new.blocks.items) (length pool.new.free.items)
        rows.new.room (vec_capacity pool.new.free) }
{
    let used = rows.blocks.len();
    let wanted = wanted.max(pool.free.len());
    if wanted > MOST_BLOCKS - used {
        return Err(AllocError);
    }
    rows.reserve(wanted)?;
    pool.reserve(used + wanted)?;
    while pool.free.len() < wanted {
        pool.give(Block::new(alloc)?);
    }
    Ok(())
}

/// The pace at which the adds need the fewest blocks, or one each where the list has as many.
pub fn pace_for<T: Copy + Drop>(rows: &Rows<T>, free: usize, more: usize) -> usize
    ensures { IsPace result }
{
    if more <= free || (more == 1 && rows.full > 0) {
        // Each add can split one block at most.
        return 1;
    }
    if more == 1 {
        // No block is full, so that one add splits none.
        return 2;
    }
    if more <= rows.blocks.len() {
        // A block for each add at most doubles the list, and no block is walked.
        return 1;
    }
    best_pace(&rows.blocks, more)
}

// Its result is only the better choice: the caller takes what the adds need at this pace, whatever it is.
fn best_pace<T: Copy + Drop>(blocks: &[Block<T>], more: usize) -> usize
    ensures { IsPace result }
{
    let mut near: [usize; BLOCK] = [0; BLOCK];
    for block in blocks {
        let short = BLOCK - block.len();
        if short < BLOCK {
            near[short] = near[short].saturating_add(1);
        }
    }
    let (mut best, mut least) = (1, more);
    let (mut progress, mut closer): (usize, usize) = (0, 0);
    for pace in 2..BLOCK + 2 {
        closer = closer.saturating_add(near[pace - 2]);
        progress = progress.saturating_add(closer);
        let needed = more
            .saturating_add(progress)
            .saturating_add(pace.min(HALF))
            .saturating_sub(pace)
            / pace.min(HALF);
        if needed <= least {
            (best, least) = (pace, needed);
        }
    }
    best
}

/// How many free blocks so many adds need at the pace, where the blocks have come so far.
pub fn needed(more: usize, progress: usize, pace: usize) -> usize
    requires pace { IsPace pace }
    requires adds { more ≤ 1099511627776 }
    requires progress { progress ≤ (block_size + 1) * most_blocks }
    ensures { (free : ℕ) → result ≤ free → more + 1 + progress ≤ pace + min pace half_size * free }
{
    let slow = pace.min(HALF);
    (more + progress + slow).saturating_sub(pace) / slow
}

/// How far the blocks have come at the pace. At a pace of one or two this walks none of them.
pub fn progress_at<T: Copy + Drop>(rows: &Rows<T>, pace: usize) -> usize
    requires { IsPace pace }
    ensures progress { result ≡ progress_of pace rows.now.blocks.items }
    ensures fits { result ≤ (block_size + 1) * most_blocks }
{
    match pace {
        1 => 0,
        2 => rows.full,
        pace => progress_of(pace, &rows.blocks),
    }
}

/// How far the blocks have come towards their next splits.
pub fn progress_of<T: Copy + Drop>(pace: usize, blocks: &[Block<T>]) -> usize
    requires slow { IsPace pace }
    requires few { length blocks.now ≤ most_blocks }
    ensures progress { result ≡ progress_of pace blocks.now }
    ensures fits { result ≤ (block_size + 1) * most_blocks }
{
    let mut sum = 0;
    for block in blocks {
        sum += pace.saturating_sub(BLOCK + 1 - block.len());
    }
    sum
}

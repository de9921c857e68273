//! How many blocks a list takes, which no clause says and no public call tells.
use crate::large::Large;
use std::alloc::Global;
use std::test::Fail;

// How many blocks a list of so many elements, put in behind one another, has after it makes room for more.
fn blocks_for(alloc: Global, elements: u64, more: usize) -> Result<usize, Fail> {
    let mut list = Large::new(alloc)?;
    for element in 0..elements {
        list.reserve(1)?;
        let end = list.len();
        list.insert(end, 0, element);
    }
    list.reserve(more)?;
    Ok(list.blocks())
}

#[test]
fn no_more_blocks_are_taken_than_the_adds_can_need(rt: HostRuntime) -> Result<(), Fail> {
    // The first split comes when a block of 256 is full, each further one 128 adds later at the soonest.
    for (elements, more, blocks) in [
        (0, 1, 1),
        (0, 256, 1),
        (0, 257, 2),
        (0, 384, 2),
        (0, 385, 3),
        (150, 106, 1),
        (150, 107, 2),
        (150, 234, 2),
        (150, 235, 3),
        (256, 1, 2),
        (256, 128, 2),
        (256, 129, 3),
        // Two blocks, of which one is full and the other has one element, so that only the one is near its split.
        (257, 1, 3),
        (257, 128, 3),
        (257, 129, 4),
    ] {
        assert_eq!(rt;
            blocks_for(rt.alloc(), elements, more)?,
            blocks,
            "{more} more than {elements}"
        );
    }
    Ok(())
}

#[test]
fn rising_and_falling_elements_fill_their_blocks(rt: HostRuntime) -> Result<(), Fail> {
    for rising in [true, false] {
        let mut list = Large::new(rt.alloc())?;
        for element in 0..2_560u64 {
            list.reserve(1)?;
            let place = if rising { list.len() } else { 0 };
            list.insert(place, 0, element);
        }
        // Ten full ones, and the one that an add to a full one could need.
        assert_eq!(rt; list.blocks(), 11);
    }
    Ok(())
}

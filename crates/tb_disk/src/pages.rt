//! What a system has of a file in memory is made one with what the device has.
ghost use Rattle.std.specs.Prelude.{◌≤◌, length, IfOk};

use crate::extent::Extent;
use std::fs::File;
use std::io;
use std::io::ErrorKind;
use std::os::fd::AsRawFd;
use std::os::unix::fs::FileExt;

/// Bytes of a page of memory.
pub(crate) const PAGE: u64 = 4096;

/// How far before its first write a disk writes again what stands there, and how much behind it: whole pages of more
/// than a gate byte, the longest frame of a journal and a gate byte, 32,782 bytes.
pub(crate) const REACH: u64 = 36_864;

/// Bytes of a journal without a payload, at most: its header and a gate byte.
const EMPTY_JOURNAL: u64 = 18;

const REACH_SIZE: usize = REACH as usize;

const PAGE_SIZE: usize = PAGE as usize;

/// Puts on the device what memory has of the file, and drops it from memory: a page that the device never got may
/// stand there as if it had. A page that a process has mapped stays. It answers the file's length.
pub(crate) fn settle(file: &File) -> io::Result<u64> {
    // Each page that was written and isn't on the device is put there now, or this fails. Only clean pages are dropped.
    file.sync_all()?;
    let advised = libc::posix_fadvise(file.as_raw_fd(), 0, 0, libc::POSIX_FADV_DONTNEED);
    if advised != 0 {
        return Err(io::Error::from_raw_os_error(advised));
    }
    Ok(file.metadata()?.len())
}

/// Writes what it reads, from a place up to an end.
pub(crate) fn write_again(file: &File, from: u64, end: u64) -> io::Result<()> {
    let mut page = [0; PAGE_SIZE];
    for index in 0..end.saturating_sub(from).div_ceil(PAGE) {
        let place = from.wrapping_add(index.wrapping_mul(PAGE));
        let wanted = end.saturating_sub(place).min(PAGE) as usize;
        let count = read_whole(file, place, &mut page[..wanted])?;
        file.write_all_at(&page[..count], place)?;
    }
    Ok(())
}

/// Cuts off what stands behind a place, and writes it there again: the room that it has on the device then is new. A
/// system that failed to write a page for the first time may take its room for empty ever after, whatever is written
/// there and synced.
///
/// An append leaves less than the reach behind its gate. More is left as it is, and so is a file that a writer of a
/// whole journal begins to write over: a cut in its header would leave another file than the writer's own steps do.
pub(crate) fn write_behind_again(file: &File, extent: &mut Extent, place: u64) -> io::Result<()> {
    let mut behind = [0; REACH_SIZE];
    let count = read_whole(file, place, &mut behind)?;
    let end = place.saturating_add(count as u64);
    let begins_header = place < EMPTY_JOURNAL && end > EMPTY_JOURNAL;
    if count == 0 || begins_header || file.metadata()?.len() > end {
        return Ok(());
    }
    file.set_len(place)?;
    extent.cut(place);
    file.write_all_at(&behind[..count], place)?;
    extent.reach(end);
    Ok(())
}

/// Reads until the buffer is full or the file ends, and again where a signal interrupts it.
pub(crate) fn read_whole(file: &File, place: u64, into: &mut [u8]) -> io::Result<usize>
    ensures { IfOk result (λ count. count ≤ length into.old) }
{
    let mut count = 0;
    for _ in 0..u64::MAX {
        if count == into.len() {
            break;
        }
        match file.read_at(&mut into[count..], place.wrapping_add(count as u64)) {
            Ok(0) => break,
            Ok(more) => count += more,
            Err(error) if error.kind() == ErrorKind::Interrupted => {}
            Err(error) => return Err(error),
        }
    }
    Ok(count)
}

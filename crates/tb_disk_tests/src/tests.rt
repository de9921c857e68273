//! Tests of the disk in memory, and of a disk over a file of the system.
use std::fs::{File, OpenOptions};
use std::process::Abort;
use std::test::Fail;
use std::{env, fs};
use tb_disk::*;
use tb_link::Failed;

fn written(rt: &impl Abort, disk: &mut MemoryDisk, place: u64, bytes: &[u8]) -> bool {
    assert!(rt; place <= disk.contents().len() as u64);
    assert!(rt; place < 1000 && bytes.len() < 100);
    disk.write_at(place, bytes).is_ok()
}

fn shortened(rt: &impl Abort, disk: &mut MemoryDisk, len: u64) -> bool {
    assert!(rt; len <= disk.contents().len() as u64);
    disk.cut(len).is_ok()
}

#[test]
fn a_disk_in_memory_is_read_as_it_was_written(rt: HostRuntime) -> Result<(), Fail> {
    let none = Vec::new(rt.alloc());
    let mut disk = MemoryDisk::new(rt.alloc(), b"abcd", 8, 1000, none, 0)?;
    assert!(rt; written(&rt, &mut disk, 1, b"xy"), "within");
    assert!(rt; written(&rt, &mut disk, 3, b"pqr"), "past the end");
    assert_eq!(rt; disk.contents(), b"axypqr".as_slice());
    assert_eq!(rt; disk.len(), Ok(6));
    let mut buffer = *b"......";
    assert_eq!(rt; disk.read(4, &mut buffer), Ok(2));
    assert_eq!(rt; buffer, *b"qr....");
    assert!(rt; shortened(&rt, &mut disk, 2));
    assert_eq!(rt; disk.contents(), b"ax".as_slice());
    assert_eq!(rt; disk.sync(), Ok(()));
    assert_eq!(rt; disk.calls(), 6);
    Ok(())
}

#[test]
fn stated_calls_fail(rt: HostRuntime) -> Result<(), Fail> {
    let fails = vec![in rt.alloc(); 0, 1, 2, 4]?;
    let mut disk = MemoryDisk::new(rt.alloc(), b"abcd", 8, 1000, fails, b'!')?;
    assert_eq!(rt; disk.sync(), Err(Failed));
    assert!(rt; !shortened(&rt, &mut disk, 1));
    assert!(rt; !written(&rt, &mut disk, 2, b"xyz"));
    assert_eq!(rt;
        disk.contents(),
        b"ab!!".as_slice(),
        "what was there is torn"
    );
    assert_eq!(rt; disk.len(), Ok(4));
    assert_eq!(rt; disk.len(), Err(Failed));
    Ok(())
}

#[test]
fn rooms_are_kept(rt: HostRuntime) -> Result<(), Fail> {
    let none = Vec::new(rt.alloc());
    // Room for three calls of no bytes and six bytes more.
    let mut disk = MemoryDisk::new(rt.alloc(), b"abcd", 6, 102, none, b'!')?;
    assert!(rt;
        !written(&rt, &mut disk, 3, b"wxyz"),
        "past the room of the disk"
    );
    assert_eq!(rt; disk.contents(), b"abc!".as_slice());
    assert!(rt;
        !written(&rt, &mut disk, 0, b"0123456789012345678901234567890123456"),
        "past the room of the log"
    );
    assert_eq!(rt; disk.contents(), b"abc!".as_slice());
    assert!(rt; written(&rt, &mut disk, 0, b"ef"));
    assert_eq!(rt; disk.len(), Ok(4), "the last of the log's room");
    assert_eq!(rt; disk.sync(), Err(Failed));
    assert_eq!(rt; disk.calls(), 5);
    Ok(())
}

#[test]
fn a_real_file_is_a_disk(rt: HostRuntime) -> Result<(), Fail> {
    let mut path = env::temp_dir(&rt)?;
    path.push("tb_disk_a_real_file_is_a_disk")?;
    let file = OpenOptions::new()
        .read(true)
        .write(true)
        .create(true)
        .truncate(true)
        .open(&rt, path.as_path())?;
    let mut disk = FileDisk::new(file);
    assert_eq!(rt; disk.write_at(0, b"abcdef"), Ok(()));
    assert_eq!(rt; disk.write_at(4, b"xyz"), Ok(()));
    assert_eq!(rt; disk.sync(), Ok(()));
    assert_eq!(rt; disk.len(), Ok(7));
    assert_eq!(rt; disk.cut(6), Ok(()));
    let mut buffer = *b"....";
    assert_eq!(rt; disk.read(3, &mut buffer), Ok(3));
    assert_eq!(rt; buffer, *b"dxy.");
    assert_eq!(rt; disk.sync(), Ok(()));
    fs::remove_file(&rt, path.as_path())?;
    Ok(())
}

// An empty file of this name in the current folder.
fn made(rt: &HostRuntime, name: &str) -> Result<File, Fail> {
    let file = OpenOptions::new()
        .read(true)
        .write(true)
        .create(true)
        .truncate(true)
        .open(rt, name)?;
    Ok(file)
}

#[test]
fn a_first_write_leaves_what_stands_round_it(rt: HostRuntime) -> Result<(), Fail> {
    let name = "tb_disk_first_write";
    let mut disk = FileDisk::named(rt, name, made(&rt, name)?);
    assert_eq!(rt; disk.write_at(0, b"01234567890123456789abcdef"), Ok(()));
    assert_eq!(rt; disk.sync(), Ok(()));
    let again = OpenOptions::new().read(true).write(true).open(&rt, name)?;
    let mut disk = FileDisk::named(rt, name, again);
    assert_eq!(rt; disk.write_at(21, b"xy"), Ok(()));
    assert_eq!(rt; disk.sync(), Ok(()));
    let mut buffer = *b"............................";
    assert_eq!(rt; disk.read(0, &mut buffer), Ok(26));
    assert_eq!(rt; buffer, *b"01234567890123456789axydef..");
    fs::remove_file(&rt, name)?;
    Ok(())
}

#[test]
fn a_long_end_stays_behind_the_first_write(rt: HostRuntime) -> Result<(), Fail> {
    let name = "tb_disk_long_end";
    let file = made(&rt, name)?;
    file.set_len(50_000)?;
    let mut disk = FileDisk::named(rt, name, file);
    assert_eq!(rt; disk.write_at(40_000, b"end"), Ok(()));
    assert_eq!(rt; disk.sync(), Ok(()));
    let again = OpenOptions::new().read(true).write(true).open(&rt, name)?;
    let mut disk = FileDisk::named(rt, name, again);
    assert_eq!(rt; disk.write_at(16, b"x"), Ok(()));
    assert_eq!(rt; disk.cut(45_000), Ok(()));
    assert_eq!(rt; disk.len(), Ok(45_000));
    let mut buffer = *b"....";
    assert_eq!(rt; disk.read(40_000, &mut buffer), Ok(4));
    assert_eq!(rt; buffer, *b"end\0");
    fs::remove_file(&rt, name)?;
    Ok(())
}

#[test]
fn a_file_that_went_away_fails_until_it_is_back(rt: HostRuntime) -> Result<(), Fail> {
    let name = "tb_disk_went_away";
    let other = "tb_disk_went_away_to";
    let mut disk = FileDisk::named(rt, name, made(&rt, name)?);
    fs::rename(&rt, name, other)?;
    assert_eq!(rt; disk.sync(), Err(Failed), "the name leads nowhere");
    let _other_file = made(&rt, name)?;
    assert_eq!(rt; disk.sync(), Err(Failed), "it leads to another file");
    fs::remove_file(&rt, name)?;
    fs::rename(&rt, other, name)?;
    assert_eq!(rt; disk.sync(), Ok(()), "the file is opened anew");
    assert_eq!(rt; disk.write_at(0, b"abc"), Ok(()));
    assert_eq!(rt; disk.sync(), Ok(()));
    fs::remove_file(&rt, name)?;
    Ok(())
}

//! A file of the system, whose bytes in memory are kept one with those on the device.
ghost use Rattle.std.specs.Prelude.{◌≡◌, ◌≤◌, length, None, IfOk, IsErr, OnOk, OnErr};
ghost use Rattle.tb_link.specs.Counts.{counted};

use crate::extent::{Extent, Span};
use crate::name::Name;
use crate::pages::{PAGE, REACH, read_whole, settle, write_again, write_behind_again};
use std::fs::File;
use std::io;
use std::io::ErrorKind;
use std::os::unix::fs::FileExt;

/// A file that is open for reading and writing. A system may keep in memory what it couldn't write, as if the device
/// had it, and let the next sync succeed. So memory is dropped when the file is taken over and when it is opened anew,
/// and what stands round the place of the first write is written again before that.
#[derive(Drop)]
pub(crate) struct SystemFile {
    // As it was handed in: it has the lock, where there is one.
    handed: File,
    // As it was opened last, where it was opened anew.
    reopened: Option<File>,
    pub(crate) name: Option<Name>,
    extent: Extent,
    // What stands round the place of the first write is on the device.
    renewed: bool,
    // How often it was opened anew.
    pub(crate) openings: u64,
}

impl SystemFile {
    /// Takes over a file, which the name leads to where there is one. The second answer is whether the device took what
    /// memory had of it.
    pub(crate) fn new(handed: File, name: Option<Name>) -> (SystemFile, io::Result<()>)
        ensures { result.0.name ≡ name }
    {
        let (len, settled) = match settle(&handed) {
            Ok(len) => (len, Ok(())),
            Err(error) => (0, Err(error)),
        };
        let file = SystemFile {
            handed,
            reopened: None,
            name,
            extent: Extent::new(len),
            renewed: false,
            openings: 0,
        };
        (file, settled)
    }

    fn file(&self) -> &File {
        opened_last(&self.handed, &self.reopened)
    }

    /// How many bytes it has.
    pub(crate) fn len(&self) -> io::Result<u64> {
        Ok(self.file().metadata()?.len())
    }

    /// Reads as many bytes as fit and exist.
    pub(crate) fn read(&self, place: u64, into: &mut [u8]) -> io::Result<usize>
        ensures { IfOk result (λ count. count ≤ length into.old) }
    {
        read_whole(self.file(), place, into)
    }

    /// Writes over what is there, and past the end. A write that makes the file longer fails too where the name doesn't
    /// lead to the file any more.
    pub(crate) fn write_at(&mut self, place: u64, bytes: &[u8]) -> io::Result<()>
        ensures { self.new.openings ≡ self.old.openings }
    {
        self.renew(place)?;
        let span = Span {
            from: place,
            end: place.saturating_add(bytes.len() as u64),
        };
        // What is written over bytes that are there, a gate, is acknowledged behind its sync, which looks.
        if self.extent.len < span.end {
            self.look()?;
        }
        self.extent.write(span);
        self.file().write_all_at(bytes, place)?;
        self.extent.reach(span.end);
        Ok(())
    }

    /// Cuts it to so many bytes.
    pub(crate) fn cut(&mut self, len: u64) -> io::Result<()>
        ensures { self.new.openings ≡ self.old.openings }
    {
        self.renew(len)?;
        self.file().set_len(len)?;
        self.extent.cut(len);
        Ok(())
    }

    /// Puts the data and the length on the device. Where the file isn't longer than at the last sync, it fails too where
    /// the name doesn't lead to the file any more.
    pub(crate) fn sync(&mut self) -> io::Result<()>
        ensures { self.new.openings ≡ self.old.openings }
    {
        self.file().sync_data()?;
        // Behind a longer file a gate is still to be written and synced. To look here too would be dear: a system gives
        // the next write a new time for each look, and puts that on the device with its sync.
        if self.extent.synced == self.extent.len {
            self.look()?;
        }
        self.extent.sync();
        Ok(())
    }

    /// Opens the file anew by its name, and puts on the device what is read of all that was written since the last
    /// sync that succeeded.
    pub(crate) fn open_anew(&mut self) -> io::Result<()>
        ensures opened { OnOk result (self.new.openings ≡ counted self.old.openings) }
        ensures failed { OnErr result (self.new.openings ≡ self.old.openings) }
        ensures nameless { self.old.name ≡ None → IsErr result }
    {
        let Some(name) = &self.name else {
            return Err(ErrorKind::NotFound.into());
        };
        let file = name.open(&self.extent)?;
        settle(&file)?;
        let synced = self.extent.synced;
        if let Some(span) = self.extent.written {
            write_again(&file, span.from, span.end.min(synced))?;
        }
        write_behind_again(&file, &mut self.extent, synced)?;
        file.sync_data()?;
        self.extent.sync();
        self.reopened = Some(file);
        self.openings = self.openings.saturating_add(1);
        Ok(())
    }

    // Before the first write or cut, what stands before its place and behind it is written again, and synced: of these
    // pages memory may have what an earlier process wrote and the device never got. It is tried again after a failure.
    fn renew(&mut self, place: u64) -> io::Result<()>
        ensures { self.new.openings ≡ self.old.openings }
    {
        if self.renewed {
            return Ok(());
        }
        let file = opened_last(&self.handed, &self.reopened);
        renew_at(file, &mut self.extent, place)?;
        self.renewed = true;
        Ok(())
    }

    fn look(&mut self) -> io::Result<()>
        ensures { self.new.openings ≡ self.old.openings }
    {
        match &mut self.name {
            Some(name) => name.look(&self.extent),
            None => Ok(()),
        }
    }
}

fn opened_last<'a>(handed: &'a File, reopened: &'a Option<File>) -> &'a File {
    match reopened {
        Some(file) => file,
        None => handed,
    }
}

fn renew_at(file: &File, extent: &mut Extent, place: u64) -> io::Result<()> {
    // The header of a journal, whose seal a migration writes last and alone.
    write_again(file, 0, place.min(PAGE))?;
    write_again(file, place.saturating_sub(REACH), place)?;
    write_behind_again(file, extent, place)?;
    file.sync_data()
}

//! Which file a name leads to.
use crate::extent::Extent;
use std::fs::{File, Metadata, OpenOptions};
use std::io::ErrorKind;
use std::os::unix::fs::MetadataExt;
use std::time::{Duration, Instant};
use std::{fs, io};

/// A name in the current folder, and the file to which it led. It looks whether it still does at most once in so long.
#[derive(Drop)]
pub(crate) struct Name {
    rt: HostRuntime,
    name: &'static str,
    device: u64,
    number: u64,
    looked: Option<Instant>,
}

// Milliseconds from one look at the name to the next, at least.
const BETWEEN_LOOKS: u64 = 1;

impl Name {
    /// The name of a file with this metadata.
    pub(crate) fn new(rt: HostRuntime, name: &'static str, found: &Metadata) -> Name {
        Name {
            rt,
            name,
            device: found.dev(),
            number: found.ino(),
            looked: None,
        }
    }

    /// Opens the file anew, if the name still leads to it.
    pub(crate) fn open(&self, extent: &Extent) -> io::Result<File> {
        let file = OpenOptions::new()
            .read(true)
            .write(true)
            .open(&self.rt, self.name)?;
        self.is_of(&file.metadata()?, extent)?;
        Ok(file)
    }

    /// The name still leads to the file, and it has the length that it was given.
    pub(crate) fn look(&mut self, extent: &Extent) -> io::Result<()> {
        let now = Instant::now(&self.rt)?;
        if let Some(looked) = self.looked
            && now.duration_since(looked) < Duration::from_millis(BETWEEN_LOOKS)
        {
            return Ok(());
        }
        self.is_of(&fs::metadata(&self.rt, self.name)?, extent)?;
        self.looked = Some(now);
        Ok(())
    }

    fn is_of(&self, found: &Metadata, extent: &Extent) -> io::Result<()> {
        if found.dev() == self.device && found.ino() == self.number && found.len() >= extent.len {
            Ok(())
        } else {
            Err(ErrorKind::NotFound.into())
        }
    }
}

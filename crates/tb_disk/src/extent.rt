//! How long a file is by what was done to it, and what of it the device has.
ghost use Rattle.std.specs.Prelude.{◌≤◌};

/// The bytes of a file from one place up to another.
#[derive(Clone, Copy, Debug)]
pub(crate) struct Span {
    pub(crate) from: u64,
    pub(crate) end: u64,
}

/// A file's length in bytes, as its calls left it; how many of these, from the front, the device had at the last sync
/// that succeeded; and where it was written since.
#[derive(Clone, Copy, Debug)]
pub(crate) struct Extent {
    pub(crate) len: u64,
    pub(crate) synced: u64,
    pub(crate) written: Option<Span>,
    ghost within: { synced ≤ len },
}

impl Extent {
    /// A file of so many bytes, all of them on the device.
    pub(crate) fn new(len: u64) -> Extent {
        Extent {
            len,
            synced: len,
            written: None,
        }
    }

    /// The span is about to be written: also a write that fails may leave any of it.
    pub(crate) fn write(&mut self, span: Span) {
        self.written = Some(match self.written {
            None => span,
            Some(before) => Span {
                from: before.from.min(span.from),
                end: before.end.max(span.end),
            },
        });
    }

    /// The file reaches up to the place now, or further.
    pub(crate) fn reach(&mut self, end: u64) {
        self.len = self.len.max(end);
    }

    /// The file was cut.
    pub(crate) fn cut(&mut self, len: u64) {
        self.len = len;
        self.synced = self.synced.min(len);
    }

    /// The device has all of it.
    pub(crate) fn sync(&mut self) {
        self.synced = self.len;
        self.written = None;
    }
}

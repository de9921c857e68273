//! Links.
ghost use Rattle.std.specs.Prelude.{◌≡◌};

use tb_link::{Sink, Source};

/// A source and a sink that leave each other alone.
pub trait Link: Source + Sink {
    /// A read leaves the link's own sink,
    ghost sink_is: { (link : Self) → Self.sink_beside link ≡ Self.sink link };

    /// and a write its own source.
    ghost source_is: { (link : Self) → Self.source_beside link ≡ Self.source link };
}

//! A link in memory.
use crate::link::Link;
use tb_link::{Failed, Sink, Source, TextSink, TextSource};

/// A source and a sink in memory.
#[derive(Drop)]
pub struct PairLink {
    pub source: TextSource,
    pub sink: TextSink,
}

impl Source for PairLink {
    ghost use Rattle.tb_link.specs.Memory.{text_source, text_sink};

    ghost source = { λ link. text_source link.source };

    ghost sink_beside = { λ link. text_sink link.sink };

    fn read(&mut self, into: &mut [u8]) -> Result<usize, Failed> {
        self.source.read(into)
    }

    ghost bounded = { λ self. self.source.faults.bounded };
}

impl Sink for PairLink {
    ghost use Rattle.tb_link.specs.Memory.{text_source, text_sink};

    ghost sink = { λ link. text_sink link.sink };

    ghost source_beside = { λ link. text_source link.source };

    fn write(&mut self, bytes: &[u8]) -> Result<(), Failed> {
        self.sink.write(bytes)
    }

    ghost bounded = { λ self. self.sink.faults.bounded };
}

impl Link for PairLink {
    ghost use Rattle.std.specs.Prelude.{refl};

    ghost sink_is = { λ link. refl };

    ghost source_is = { λ link. refl };
}

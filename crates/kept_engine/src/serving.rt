//! An engine whose log is kept, as the lines of a script are served by it.

use crate::kept::KeptEngine;
use engine_core::Engine;
use index_derive::Step;
use jet_base::OutOfMemory;
use jet_volume::Volume;
use ordered_run::{Flushed, RunEngine};

impl<V: Volume> RunEngine for KeptEngine<V> {
    ghost use Rattle.kept_engine.specs.Keeping.{kept_logged, IsReady};
    ghost use Rattle.kept_engine.specs.Serving.{makes_nothing, FlushesLog, MakesEntries};

    ghost held = { λ kept. (kept_logged kept).engine };

    ghost ready = { IsReady };

    ghost made = { MakesEntries V.seen V.moment V.left_at };

    ghost flushed = { FlushesLog V.seen V.moment V.left_at V.tells_contents V.faults V.identity };

    ghost rests = { makes_nothing V.seen V.moment V.left_at };

    fn engine(&self) -> &Engine {
        KeptEngine::engine(self).engine()
    }

    fn apply(&mut self, step: &Step) -> Result<(), OutOfMemory> {
        KeptEngine::apply(self, step)
    }

    fn flush(&mut self) -> Flushed {
        self.keep()
    }
}

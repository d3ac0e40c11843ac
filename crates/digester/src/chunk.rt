//! The next records of a sealed log, as they are prepared to be digested at once.

ghost use Rattle.std.specs.Prelude.{◌≡◌, true, IfErr, IfOk};
ghost use Rattle.digester.specs.Chunk.{IsChunkOf, is_next};
ghost use Rattle.digester.specs.SealedLog.{HasUndigested};
ghost use Rattle.digester.specs.declared.error.DigestError.TheVariants.{Memory};

use crate::error::DigestError;
use crate::next_run;
use crate::sealed_log::SealedLog;
use coalescer::RunChange;
use std::alloc::Global;

/// Records of a sealed log that are digested at once, and what they come to.
#[derive(Drop)]
pub struct Chunk {
    /// Whose log it is, from 1 to 8.
    pub client: u32,
    /// The generation of the log.
    pub generation: u64,
    /// How many records of the log stand before these.
    pub first: u32,
    /// How many records they are.
    pub count: usize,
    /// What they make of the graph, but for what swapped names lead to, which is told as they are digested.
    pub change: RunChange,
}

impl Chunk {
    /// Whether it begins where a log stands: with the first record of the log that is not digested.
    pub fn is_next(&self, log: &SealedLog) -> bool
        ensures exact { result ≡ is_next log.now self.now }
    {
        self.client == log.client()
            && self.generation == log.generation()
            && self.first == log.digested_count()
    }
}

/// Prepares the next chunk of a sealed log that has a record left: the longest run of its next records that one batch takes, one at least, and
/// what it comes to. It needs neither the shared area nor a lock: whoever digests the chunk asks then whether it is still the next one, and
/// tests its records. What swapped names lead to is told then too. An error is want of memory.
pub fn prepare(alloc: Global, log: &SealedLog) -> Result<Chunk, DigestError>
    requires some { HasUndigested log.now }
    ensures exact { IfOk result (IsChunkOf log.now) }
    ensures next { IfOk result (λ chunk. is_next log.now chunk ≡ true) }
    ensures only { IfErr result (λ e. e ≡ Memory) }
{
    match next_run(alloc, &log.records()[log.digested_count() as usize..]) {
        Ok(run) => Ok(Chunk {
            client: log.client(),
            generation: log.generation(),
            first: log.digested_count(),
            count: run.count,
            change: run.change,
        }),
        Err(_) => Err(DigestError::Memory),
    }
}

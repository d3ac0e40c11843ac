//! What records weigh at most, computed without a set of their blocks.

ghost use Rattle.std.specs.Prelude.{◌≡◌, ◌<◌, ◌++◌, ◌∷◌, List, [], true, IsTrue, IfErr, IfOk, OnErr, OnOk, length};
ghost use Rattle.std.specs.List.{range_with_len};
ghost use Rattle.graph_change.specs.file_graph.declared.effect.Effect.{Effect};
ghost use Rattle.graph_change.specs.Change.{span};
ghost use Rattle.coalescer.specs.EffectCounts.{IsEstimate};
ghost use Rattle.coalescer.specs.Records.{effects_in};
ghost use Rattle.coalescer.specs.Weight.{fits_chunk, file_blocks};

use crate::weight::{add_inodes, are_few, entry_weight, last_of, with_weight};
use graph_change::in_file_graph::Effect;
use log_record::Record;
use posix_calls::UNIT_BYTES;
use std::alloc::{AllocError, Global};
use std::collections::BTreeSet;

/// What some effects weigh, but for blocks: each counts as often as it is written.
#[derive(Drop)]
pub struct Estimate {
    inodes: BTreeSet<u32>,
    // Summed up to `CHUNK_IMAGES`: as many never fit.
    entries: usize,
    blocks: u64,
}

impl Estimate {
    /// That of no effects.
    pub fn new(alloc: Global) -> Self
        ensures { IsEstimate [] result }
    {
        Estimate {
            inodes: BTreeSet::new(alloc),
            entries: 0,
            blocks: 0,
        }
    }

    /// With the effects of a record behind the others.
    pub fn add(&mut self, logged: &Record) -> Result<(), AllocError>
        ensures exact { OnOk result ((es : List Effect) → IsEstimate es self.old → IsEstimate (es ++ logged.now.effects) self.new) }
        ensures memory { OnErr result (0 < length logged.now.effects) }
    {
        for effect in logged.effects.as_slice() {
            self.add_effect(effect)?;
        }
        Ok(())
    }

    fn add_effect(&mut self, effect: &Effect) -> Result<(), AllocError>
        ensures { OnOk result ((es : List Effect) → IsEstimate es self.old → IsEstimate (es ++ effect.now ∷ []) self.new) }
    {
        add_inodes(&mut self.inodes, effect)?;
        self.entries = with_weight(self.entries, entry_weight(effect));
        self.blocks = self.blocks.saturating_add(blocks_of(effect));
        Ok(())
    }

    /// Whether it is no more than is taken at once, and so the effects are not.
    pub fn fits(&self) -> bool
        ensures { (es : List Effect) → IsEstimate es self.now → IsTrue result → fits_chunk es ≡ true }
    {
        are_few(self.inodes.len(), self.entries, self.blocks as usize)
    }
}

// How many blocks an effect writes, or cuts within.
fn blocks_of(effect: &Effect) -> u64
    ensures { result ≡ length (file_blocks effect.now) }
{
    match effect {
        Effect::Size { size, .. } if size % UNIT_BYTES as u64 != 0 => 1,
        Effect::Bytes { at, bytes, .. } => blocks_in(*at, bytes.len() as u64),
        _ => 0,
    }
}

// How many blocks `count` bytes from an offset on lie in.
fn blocks_in(at: u64, count: u64) -> u64
    ensures { result ≡ length (span at count) }
{
    if count == 0 {
        return 0;
    }
    last_of(at, count - 1) + 1 - at / UNIT_BYTES as u64
}

/// Whether the records fit for certain: also where each block that is written twice counts twice. Many lists are so, and no block of theirs is looked for among others.
pub fn surely_fit(alloc: Global, records: &[Record]) -> Result<bool, AllocError>
    ensures fits { IfOk result (λ fits. IsTrue fits → fits_chunk (effects_in records.now) ≡ true) }
    ensures memory { IfErr result (λ _. 0 < length (effects_in records.now)) }
{
    let mut most = Estimate::new(alloc);
    for logged in records {
        most.add(logged)?;
        if !most.fits() {
            return Ok(false);
        }
    }
    Ok(most.fits())
}

//! A sealed region is digested.
ghost use Rattle.std.specs.Prelude.{◌≡◌, ◌↔◌, ◌<◌, ◌≤◌, true, IfErr, IsTrue, OnErr, OnOk};
ghost use Rattle.libfs.specs.client_log.Calls.{IsOnlyRead};
ghost use Rattle.libfs.specs.digester.Chunk.{IsChunkOf};
ghost use Rattle.libfs.specs.digester.SealedLog.{HasUndigested};
ghost use Rattle.libfs.specs.SealedRegion.{log_of};
ghost use Rattle.strata_threads.specs.RegionHandover.{IsWorkedOn};
ghost use Rattle.strata_threads.specs.RegionRefusals.{HasRefused, RefusesLog, RefusesRead};

use crate::gate_point::GatePoint;
use crate::region_refusal::RegionRefusal;
use crate::shared_kernel::SharedKernel;
use libfs::SealedRegion;
use libfs::in_digester::Chunk;
use libfs::in_kernel_fs::{Digestion, Kernel, KernelError};
use std::alloc::Global;
use std::sync::Wait;
use tier_device::Media;

/// Digests a region chunk by chunk. Its records are read and its chunks are prepared without the lock.
///
/// Ok where each record of it is digested. Refused where its records can't be read, the kernel refuses it or a chunk of it, memory is wanting, or chunks are stale as often as it has records.
pub fn digest_region<M: Media + Drop, R: Wait, G: GatePoint>(
    rt: &R,
    alloc: Global,
    shared: &SharedKernel<M>,
    region: &mut SealedRegion<M>,
    gate: &G,
) -> Result<(), RegionRefusal>
    ensures worked { IsWorkedOn M.Media region.old region.new }
    ensures whole { OnOk result (HasUndigested (log_of M.Media region.new) → ⊥) }
    ensures refused { IfErr result (λ why. HasRefused M.Media region.old why region.new) }
{
    if !has_undigested(region) {
        return Ok(());
    }
    accept(rt, alloc, shared, region)?;
    digest_all(rt, alloc, shared, region, gate)
}

// Whether a record of a region is not digested.
fn has_undigested<M: Media>(region: &SealedRegion<M>) -> bool
    ensures { IsTrue result ↔ HasUndigested (log_of M.Media region.now) }
{
    (region.digested_count() as usize) < region.count()
}

// Reads the records of a region, and has the kernel accept it.
fn accept<M: Media + Drop, R: Wait>(
    rt: &R,
    alloc: Global,
    shared: &SharedKernel<M>,
    region: &mut SealedRegion<M>,
) -> Result<(), RegionRefusal>
    requires some { HasUndigested (log_of M.Media region.old) }
    ensures worked { IsWorkedOn M.Media region.old region.new }
    ensures read { OnOk result (region.new.read ≡ true) }
    ensures refused { IfErr result (λ why. HasRefused M.Media region.old why region.new) }
{
    if region.is_accepted() {
        return Ok(());
    }
    read_log(alloc, region)?;
    let mut kernel = shared.lock(rt);
    accept_log(&mut *kernel, region)
}

// Reads the records of a region into memory.
fn read_log<M: Media + Drop>(
    alloc: Global,
    region: &mut SealedRegion<M>,
) -> Result<(), RegionRefusal>
    ensures read { OnOk result (region.new.read ≡ true) }
    ensures only_read { IsOnlyRead M.Media region.old.region region.new.region }
    ensures rest { region.new ≡ record region.old { region = region.new.region; read = region.new.read } }
    ensures refused { IfErr result (λ why. RefusesRead M.Media region.old why region.new) }
{
    match region.read_records(alloc) {
        Ok(()) => Ok(()),
        Err(error) => Err(RegionRefusal::Read(error)),
    }
}

// Has the kernel accept a region.
fn accept_log<M: Media + Drop>(
    kernel: &mut Kernel<M>,
    region: &mut SealedRegion<M>,
) -> Result<(), RegionRefusal>
    requires read { region.old.read ≡ true }
    requires some { HasUndigested (log_of M.Media region.old) }
    ensures accepted { OnOk result (region.new ≡ record region.old { accepted = true }) }
    ensures same { OnErr result (region.new ≡ region.old) }
    ensures refused { IfErr result (λ why. RefusesLog M.Media why region.new) }
{
    match region.accept(kernel) {
        Ok(()) => Ok(()),
        Err(error) => Err(RegionRefusal::Accept(error)),
    }
}

// Digests what is left of a region, in at most as many chunks as it has records.
fn digest_all<M: Media + Drop, R: Wait, G: GatePoint>(
    rt: &R,
    alloc: Global,
    shared: &SharedKernel<M>,
    region: &mut SealedRegion<M>,
    gate: &G,
) -> Result<(), RegionRefusal>
    requires read { region.old.read ≡ true }
    ensures more { region.old.done ≤ region.new.done }
    ensures rest { region.new ≡ record region.old { done = region.new.done } }
    ensures whole { OnOk result (HasUndigested (log_of M.Media region.new) → ⊥) }
    ensures refused { IfErr result (λ why. RefusesLog M.Media why region.new) }
{
    for chunk in 0..region.count() {
        if !has_undigested(region) {
            return Ok(());
        }
        digest_next(rt, alloc, shared, region, gate)?;
    }
    end_of(region)
}

// Whether each record of a region is digested.
fn end_of<M: Media + Drop>(region: &SealedRegion<M>) -> Result<(), RegionRefusal>
    ensures whole { OnOk result (HasUndigested (log_of M.Media region.now) → ⊥) }
    ensures refused { IfErr result (λ why. RefusesLog M.Media why region.now) }
{
    if has_undigested(region) {
        Err(RegionRefusal::NotNext)
    } else {
        Ok(())
    }
}

// Prepares the next chunk of a region, and has it digested. A chunk that is no longer the next one is to be prepared again.
fn digest_next<M: Media + Drop, R: Wait, G: GatePoint>(
    rt: &R,
    alloc: Global,
    shared: &SharedKernel<M>,
    region: &mut SealedRegion<M>,
    gate: &G,
) -> Result<(), RegionRefusal>
    requires read { region.old.read ≡ true }
    requires some { HasUndigested (log_of M.Media region.old) }
    ensures more { region.old.done ≤ region.new.done }
    ensures rest { region.new ≡ record region.old { done = region.new.done } }
    ensures refused { IfErr result (λ why. RefusesLog M.Media why region.new) }
{
    match region.prepare(alloc) {
        Ok(mut chunk) => {
            gate.pass();
            let mut kernel = shared.lock(rt);
            digest_chunk(&mut *kernel, region, &mut chunk)
        }
        Err(error) => Err(RegionRefusal::Digest(KernelError::Refused(error))),
    }
}

fn digest_chunk<M: Media + Drop>(
    kernel: &mut Kernel<M>,
    region: &mut SealedRegion<M>,
    chunk: &mut Chunk,
) -> Result<(), RegionRefusal>
    requires read { region.old.read ≡ true }
    requires some { HasUndigested (log_of M.Media region.old) }
    requires chunk { IsChunkOf (log_of M.Media region.old) chunk.old }
    ensures more { region.old.done ≤ region.new.done }
    ensures rest { region.new ≡ record region.old { done = region.new.done } }
    ensures refused { IfErr result (λ why. RefusesLog M.Media why region.new) }
{
    match region.digest(kernel, chunk) {
        Ok(Digestion::Digested) => {
            reclaim_nameless(kernel, chunk);
            Ok(())
        }
        Ok(Digestion::NotNext) => Ok(()),
        Ok(Digestion::NotAccepted) => Err(RegionRefusal::NotAccepted),
        Err(error) => Err(RegionRefusal::Digest(error)),
    }
}

// Drops the files that lost their last name by a chunk, where nobody has pinned them.
fn reclaim_nameless<M: Media>(kernel: &mut Kernel<M>, chunk: &Chunk) {
    for (inode, change) in &chunk.change.change.nodes {
        if change.names == Some(0) {
            let _ = kernel.reclaim(*inode);
        }
    }
}

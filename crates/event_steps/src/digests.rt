//! The region that a client sealed: digested chunk by chunk, and taken back.
ghost use Rattle.std.specs.Prelude.{◌≡◌, true, false, Some, Ok, Err, Result, is_some};
ghost use Rattle.libfs.specs.digester.Chunk.{IsChunkOf, is_next};
ghost use Rattle.libfs.specs.digester.SealedLog.{HasUndigested};
ghost use Rattle.libfs.specs.RegionSeal.{HasTakenBack, MayTakeBack};
ghost use Rattle.libfs.specs.SealedRegion.{log_of};
ghost use Rattle.libfs.specs.digester.declared.error.DigestError.{DigestError};
ghost use Rattle.libfs.specs.kernel_fs.declared.chunk_digest.Digestion.{Digestion};
ghost use Rattle.libfs.specs.kernel_fs.declared.error.KernelError.{KernelError};
ghost use Rattle.event_steps.specs.Effects.{Carries};
ghost use Rattle.event_steps.specs.Sound.{owner_of};
ghost use Rattle.event_steps.specs.Regions.{ChunkCame, DigestsNext, IsDigestedOn, digest_outcome};
ghost use Rattle.event_steps.specs.declared.outcome.Outcome.TheVariants as outcomes;

use crate::client_slot::ClientSlot;
use crate::log_accept::accept_region;
use crate::outcome::{Outcome, Refusal};
use libfs::in_digester::{Chunk, DigestError};
use libfs::in_kernel_fs::{Digestion, Kernel, KernelError};
use libfs::{Client, SealedRegion};
use std::alloc::Global;
use tier_device::Media;

impl<M: Media + Drop> ClientSlot<M> {
    /// One chunk of the region that is away is digested; with the last one the client takes the region back.
    pub fn digest(&mut self, alloc: Global, kernel: &mut Kernel<M>) -> Outcome
        ensures carries { Carries ((self.old.client.log.failed ≡ false) × (is_some self.old.away ≡ true)) (IsDigestedOn M.Media kernel.old self.old result self.new kernel.new) ((self.new ≡ self.old) × (kernel.new ≡ kernel.old)) result }
        ensures owner { owner_of self.new.client ≡ owner_of self.old.client }
    {
        if self.client.has_failed() {
            return Outcome::Idle;
        }
        let Some(mut away) = self.away.take() else {
            return Outcome::Idle;
        };
        match accept_region(alloc, &mut away, kernel) {
            Ok(()) => {}
            Err(refusal) => {
                put(&mut self.away, away);
                return Outcome::Refused { refusal };
            }
        }
        let outcome = digest_next(alloc, &mut away, kernel);
        if away.is_digested() {
            take_back(&mut self.client, away);
        } else {
            put(&mut self.away, away);
        }
        outcome
    }
}

fn put<M: Media + Drop>(place: &mut Option<SealedRegion<M>>, away: SealedRegion<M>)
    ensures { place.new ≡ Some away }
{
    *place = Some(away);
}

// The client takes its region back.
fn take_back<M: Media + Drop>(client: &mut Client<M>, away: SealedRegion<M>)
    requires may { MayTakeBack M.Media client.old away }
    ensures { HasTakenBack M.Media client.old away client.new }
{
    match client.take_back(away) {
        Ok(()) => {}
        Err(_) => unreachable!(),
    }
}

// Prepares the next chunk of a region that the kernel has accepted, and has the kernel digest it.
fn digest_next<M: Media>(
    alloc: Global,
    region: &mut SealedRegion<M>,
    kernel: &mut Kernel<M>,
) -> Outcome
    requires read { region.old.read ≡ true }
    requires some { HasUndigested (log_of M.Media region.old) }
    ensures rest { region.new ≡ record region.old { done = region.new.done } }
    ensures came { ChunkCame M.Media kernel.old (log_of M.Media region.old) result (log_of M.Media region.new) kernel.new }
{
    match region.prepare(alloc) {
        Ok(mut chunk) => digest_prepared(kernel, region, &mut chunk),
        Err(_) => Outcome::Refused {
            refusal: Refusal::Memory,
        },
    }
}

fn digest_prepared<M: Media>(
    kernel: &mut Kernel<M>,
    region: &mut SealedRegion<M>,
    chunk: &mut Chunk,
) -> Outcome
    requires read { region.old.read ≡ true }
    requires some { HasUndigested (log_of M.Media region.old) }
    requires chunk { IsChunkOf (log_of M.Media region.old) chunk.old }
    requires next { is_next (log_of M.Media region.old) chunk.old ≡ true }
    ensures rest { region.new ≡ record region.old { done = region.new.done } }
    ensures came { (answer : Result Digestion (KernelError DigestError)) × (result ≡ digest_outcome answer) × DigestsNext M.Media kernel.old (log_of M.Media region.old) chunk.old.count answer (log_of M.Media region.new) kernel.new }
{
    match region.digest(kernel, chunk) {
        Ok(digestion) => digestion_outcome(digestion),
        Err(error) => Outcome::Refused {
            refusal: refusal_to_digest(error),
        },
    }
}

fn digestion_outcome(digestion: Digestion) -> Outcome
    ensures { result ≡ digest_outcome (Ok digestion) }
{
    match digestion {
        Digestion::Digested => Outcome::Stepped,
        // The chunk was prepared just now: so its log stands at no mark of its client.
        Digestion::NotNext | Digestion::NotAccepted => Outcome::Refused {
            refusal: Refusal::BadLog,
        },
    }
}

fn refusal_to_digest(error: KernelError<DigestError>) -> Refusal
    ensures { digest_outcome (Err error) ≡ outcomes.Refused result }
{
    match error {
        KernelError::Failed => Refusal::KernelFailed,
        KernelError::Refused(DigestError::DeviceFault) => Refusal::DeviceFault,
        KernelError::Refused(DigestError::Memory) => Refusal::Memory,
        KernelError::Refused(DigestError::BadLog { .. }) => Refusal::BadLog,
    }
}

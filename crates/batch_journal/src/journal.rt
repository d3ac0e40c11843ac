ghost use Rattle.std.specs.Prelude.{◌≡◌, ◌≢◌, ◌<◌, ◌≤◌, ◌+◌, ◌*◌, ◌⊎◌, ℕ, List, length, true, false, OnOk, OnErr, IfOk, IfErr, IsErrOf};
ghost use Rattle.layout.specs.Places.{Sizes, tier_blocks, data_first};
ghost use Rattle.tier_device.specs.declared.media.Tier.{Tier};
ghost use Rattle.tier_device.specs.declared.media.Tier.TheVariants.{Fast};
ghost use Rattle.tier_device.specs.Media.{Puts, Rose, overwritten};
ghost use Rattle.tier_device.specs.AfterStop.{AtRest};
ghost use Rattle.tier_device.specs.StopsSince.{LeftSince};
ghost use Rattle.batch_journal.specs.Images.{slice};
ghost use Rattle.batch_journal.specs.Blocks.{home, after_batch, block_of, is_home, is_gate_open, IsShutGate, AreJournaled, opening_calls, ShowsHome};
ghost use Rattle.batch_journal.specs.Volume.{IsJournal, IsVolume, KeepsGeometry, SameJournal};
ghost use Rattle.batch_journal.specs.Course.{Since, Unmoved, SameLengths, TornFrom, BeforeOrAfter, OutsideRun, OutsideRunFrom};
ghost use Rattle.batch_journal.specs.declared.error.JournalError.TheVariants.{DeviceFault, BatchTooLarge, Memory};
ghost use Rattle.batch_journal.specs.Damage.{OnJournalDamage, NamesDamage, AwaitsReplay};

use crate::Batch;
use crate::calls::{put, settle};
use crate::error::JournalError;
use crate::journal_open::open_medium;
use crate::kept_blocks::KeptBlocks;
use crate::kept_reads::fetch_kept;
use crate::replay::write_batch;
use layout::{BLOCK, Geometry, MAX_IMAGES};
use std::alloc::Global;
use std::marker::Model;
use tier_device::{Media, Tier};

/// The shared medium behind its journal.
///
/// Contracts speak of `home`: block k of the fast tier as it stands once an open journal is replayed. Blocks of data, which no
/// batch may name, are written in place by `write` and kept by `fence`; they may be pending while a batch is committed.
///
/// Blocks that a batch may write are kept as they are read and committed, up to 256 of them, and a part of one that is kept is
/// read with no device call. The memory is taken once, at the opening; where it is refused, no block is kept.
///
/// A call makes no device call behind one that failed, so it meets one fault at most. It makes the journal answer `DeviceFault` to
/// each later call, with nothing changed, until the medium is opened again.
#[derive(Drop)]
pub struct Journal<M: Media> {
    media: M,
    geometry: Geometry,
    failed: bool,
    kept: KeptBlocks,
}

impl<M: Media> Model for Journal<M> {
    ghost use Rattle.std.specs.Prelude.{◌≡◌, false};
    ghost use Rattle.tier_device.specs.declared.media.Tier.TheVariants.{Fast};
    ghost use Rattle.batch_journal.specs.View.{JournalView};
    ghost use Rattle.batch_journal.specs.Kept.{IsGoing};

    ghost Value = { JournalView M };

    ghost view = { λ j. record { media = j.media; geometry = j.geometry; failed = j.failed } };

    // until a device has failed
    ghost invariant = { λ j. j.failed ≡ false → IsGoing j.geometry (M.seen j.media) (M.left j.media (M.moment j.media) Fast) j.kept.places.items };
}

impl<M: Media> Journal<M> {
    /// Opens a medium on which nothing is pending on the fast tier. An open journal is replayed, by the calls of a batch from
    /// the images on; home block 0 then tells the geometry.
    ///
    /// `Damaged`, with nothing written, where the medium is of no geometry that block 0 tells, or the gate's block or the head
    /// behind an open gate is not as the format has it; it names which, and the block. `Memory` is for the replay of a
    /// journal that is sound. The medium is handed back with each refusal, untouched but where the device failed, and then it
    /// can be opened as before.
    pub fn reopen(alloc: Global, media: M) -> Result<Self, (JournalError, M)>
        requires { AtRest (M.seen media) (M.left media (M.moment media)) Fast }

        // At each moment a stop leaves a content that is opened with the same blocks.
        ensures any_moment { IfOk result (λ j. Since Fast (SameJournal (M.seen media Fast)) (M.moment media) (M.moment j.media) (M.left media) (M.left j.media)) }
        ensures any_moment_refused { IfErr result (λ e. Since Fast (SameJournal (M.seen media Fast)) (M.moment media) (M.moment e.1) (M.left media) (M.left e.1)) }

        ensures is { IfOk result (λ j. IsVolume j.geometry (M.seen media)) }
        ensures blocks { IfOk result (λ j. home (M.seen j.media Fast) ≡ home (M.seen media Fast)) }
        ensures others { IfOk result (λ j. (t : Tier) → t ≢ Fast → M.seen j.media t ≡ M.seen media t) }
        ensures rests { IfOk result (λ j. AtRest (M.seen j.media) (M.left j.media (M.moment j.media)) Fast) }
        ensures calls { IfOk result (λ j. M.moment j.media ≡ M.moment media + opening_calls (M.seen media Fast)) }
        ensures gate_byte { IfOk result (λ j. is_gate_open (M.seen media Fast) ≡ true → IsShutGate (M.seen j.media Fast)) }
        ensures unfailed { IfOk result (λ j. j.failed ≡ false) }
        ensures lengths { IfOk result (λ j. SameLengths (M.seen media) (M.seen j.media)) }
        ensures quiet { IfOk result (λ j. M.faults j.media ≡ M.faults media) }

        ensures damaged { IfErr result (λ e. OnJournalDamage e.0 (λ _ _. (g : Sizes) → IsVolume g (M.seen media) → ⊥)) }
        ensures named { IfErr result (λ e. OnJournalDamage e.0 (NamesDamage (M.seen media))) }
        ensures memory { IfErr result (λ e. e.0 ≡ Memory → AwaitsReplay (M.seen media)) }
        ensures untouched { IfErr result (λ e. e.0 ≢ DeviceFault → Unmoved (M.moment media) (M.moment e.1) (M.seen media) (M.seen e.1) (M.left media) (M.left e.1)) }
        ensures fault { IfErr result (λ e. e.0 ≡ DeviceFault → Rose (M.faults media) (M.faults e.1)) }
        ensures quiet_refused { IfErr result (λ e. e.0 ≢ DeviceFault → M.faults e.1 ≡ M.faults media) }
        ensures at_most { IfErr result (λ e. M.moment e.1 ≤ M.moment media + opening_calls (M.seen media Fast)) }
        ensures only { IfErr result (λ e. e.0 ≢ BatchTooLarge) }
        ensures lengths_refused { IfErr result (λ e. SameLengths (M.seen media) (M.seen e.1)) }
        ensures faults_refused { IfErr result (λ e. M.faults media ≤ M.faults e.1) }
        ensures one_fault { IfErr result (λ e. M.faults e.1 ≤ M.faults media + 1) }
    {
        let mut media = media;
        match open_medium(alloc, &mut media) {
            Ok(geometry) => Ok(Journal {
                media,
                geometry,
                failed: false,
                kept: KeptBlocks::new(alloc),
            }),
            Err(error) => Err((error, media)),
        }
    }

    /// Writes the images of a batch to their blocks, all or none at each moment: a batch that `suits` the geometry. It makes 7
    /// device calls and one for each image, none for a batch of no image, and takes no memory. After it, nothing is pending on
    /// the fast tier.
    ///
    /// `BatchTooLarge`, with nothing changed, exactly where there are over 256 images. Where the device fails, a stop leaves
    /// the blocks from before the batch or those after it.
    pub fn commit(&mut self, batch: &Batch) -> Result<(), JournalError>
        requires places { AreJournaled self.old.geometry batch.now }
        requires superblock { KeepsGeometry self.old.geometry batch.now }

        // At each moment a stop leaves the blocks of something that it might leave before, or those after the batch.
        ensures any_moment { self.old.failed ≡ false → Since Fast (BeforeOrAfter self.old.geometry (M.left self.old.media (M.moment self.old.media) Fast) batch.now (M.seen self.old.media Fast))
            (M.moment self.old.media) (M.moment self.new.media) (M.left self.old.media) (M.left self.new.media) }
        ensures after { OnOk result (home (M.seen self.new.media Fast) ≡ after_batch batch.now (home (M.seen self.old.media Fast))) }
        ensures durable { OnOk result (0 < length batch.now → AtRest (M.seen self.new.media) (M.left self.new.media (M.moment self.new.media)) Fast) }
        ensures others { OnOk result ((t : Tier) → t ≢ Fast → M.seen self.new.media t ≡ M.seen self.old.media t) }
        ensures calls { OnOk result (0 < length batch.now → M.moment self.new.media ≡ M.moment self.old.media + length batch.now + 7) }
        ensures at_most { M.moment self.new.media ≤ M.moment self.old.media + length batch.now + 7 }
        ensures gate_byte { OnOk result (0 < length batch.now → IsShutGate (M.seen self.new.media Fast)) }
        ensures none { length batch.now ≡ 0 → self.new ≡ self.old }

        ensures large { IsErrOf result BatchTooLarge → (256 < length batch.now) × (self.new ≡ self.old) }
        ensures small { self.old.failed ≡ false → 256 < length batch.now → IsErrOf result BatchTooLarge }
        ensures only { IfErr result (λ e. (e ≡ DeviceFault) ⊎ (e ≡ BatchTooLarge)) }
        ensures fault { IsErrOf result DeviceFault → (self.new.failed ≡ true) × ((self.old.failed ≡ true) ⊎ Rose (M.faults self.old.media) (M.faults self.new.media)) }
        ensures quiet { OnOk result (M.faults self.new.media ≡ M.faults self.old.media) }
        ensures going { OnOk result ((self.old.failed ≡ false) × (self.new.failed ≡ false)) }
        ensures stays_failed { self.old.failed ≡ true → (result ≡ Err DeviceFault) × (self.new ≡ self.old) }
        ensures geometry { self.new.geometry ≡ self.old.geometry }
        ensures lengths { SameLengths (M.seen self.old.media) (M.seen self.new.media) }
        ensures faults { M.faults self.old.media ≤ M.faults self.new.media }
        ensures one_fault { M.faults self.new.media ≤ M.faults self.old.media + 1 }
    {
        if self.failed {
            return Err(JournalError::DeviceFault);
        }
        let count = batch.len();
        if MAX_IMAGES < count {
            return Err(JournalError::BatchTooLarge);
        }
        if count == 0 {
            return Ok(());
        }
        let bytes = batch.as_bytes();
        match write_batch(&mut self.media, bytes, count) {
            Ok(()) => {
                self.kept.keep_images(bytes, count);
                Ok(())
            }
            Err(_) => {
                self.failed = true;
                Err(JournalError::DeviceFault)
            }
        }
    }

    /// What home block k holds, 4,096 bytes: any block of the fast tier but the journal's own. After a refusal the buffer is
    /// as it was.
    pub fn image(&mut self, block: u32, out: &mut [u8]) -> Result<(), JournalError>
        requires size { length out.old ≡ 4096 }
        requires home { is_home block ≡ true }
        requires inside { block < tier_blocks self.old.geometry Fast }
        ensures bytes { OnOk result (out.new ≡ home (M.seen self.old.media Fast) block) }
        ensures refused { OnErr result (out.new ≡ out.old) }
        ensures unmoved { Unmoved (M.moment self.old.media) (M.moment self.new.media) (M.seen self.old.media) (M.seen self.new.media) (M.left self.old.media) (M.left self.new.media) }
        ensures only { IfErr result (λ e. e ≡ DeviceFault) }
        ensures fault { OnErr result ((self.new.failed ≡ true) × ((self.old.failed ≡ true) ⊎ Rose (M.faults self.old.media) (M.faults self.new.media))) }
        ensures quiet { OnOk result (M.faults self.new.media ≡ M.faults self.old.media) }
        ensures going { OnOk result ((self.old.failed ≡ false) × (self.new.failed ≡ false)) }
        ensures stays_failed { self.old.failed ≡ true → (result ≡ Err DeviceFault) × (self.new ≡ self.old) }
        ensures geometry { self.new.geometry ≡ self.old.geometry }
        ensures faults { M.faults self.old.media ≤ M.faults self.new.media }
        ensures one_fault { M.faults self.new.media ≤ M.faults self.old.media + 1 }
    {
        // For the proof: a read opens the type, whose invariant says what a journal has.
        let _ = &self.failed;
        self.read(Tier::Fast, BLOCK * block as usize, out)
    }

    /// Reads bytes of a tier from a byte of it on, as many as the buffer has; it takes no memory. After a refusal the buffer is
    /// as it was. Of the fast tier's home blocks the bytes are those that `image` gives.
    pub fn read(&mut self, tier: Tier, at: usize, out: &mut [u8]) -> Result<(), JournalError>
        requires { at + length out.old ≤ 4096 * tier_blocks self.old.geometry tier }
        ensures bytes { OnOk result (out.new ≡ slice at (length out.old) (M.seen self.old.media tier)) }
        ensures home { OnOk result (tier ≡ Fast → ShowsHome at out.new (M.seen self.old.media Fast)) }
        ensures refused { OnErr result (out.new ≡ out.old) }
        ensures unmoved { Unmoved (M.moment self.old.media) (M.moment self.new.media) (M.seen self.old.media) (M.seen self.new.media) (M.left self.old.media) (M.left self.new.media) }
        ensures only { IfErr result (λ e. e ≡ DeviceFault) }
        ensures fault { OnErr result ((self.new.failed ≡ true) × ((self.old.failed ≡ true) ⊎ Rose (M.faults self.old.media) (M.faults self.new.media))) }
        ensures quiet { OnOk result (M.faults self.new.media ≡ M.faults self.old.media) }
        ensures going { OnOk result ((self.old.failed ≡ false) × (self.new.failed ≡ false)) }
        ensures stays_failed { self.old.failed ≡ true → (result ≡ Err DeviceFault) × (self.new ≡ self.old) }
        ensures geometry { self.new.geometry ≡ self.old.geometry }
        ensures faults { M.faults self.old.media ≤ M.faults self.new.media }
        ensures one_fault { M.faults self.new.media ≤ M.faults self.old.media + 1 }
    {
        if self.failed {
            return Err(JournalError::DeviceFault);
        }
        match fetch_kept(
            &mut self.media,
            &mut self.kept,
            &self.geometry,
            tier,
            at,
            out,
        ) {
            Ok(()) => Ok(()),
            Err(_) => {
                self.failed = true;
                Err(JournalError::DeviceFault)
            }
        }
    }

    /// Writes data to a tier from the start of a block on, in one device call: to blocks that no batch may name. The data is
    /// kept by the next `fence` of the tier; of the fast tier also by a commit.
    ///
    /// Home blocks stay at each moment, as all bytes outside the run do.
    pub fn write(&mut self, tier: Tier, first: u32, bytes: &[u8]) -> Result<(), JournalError>
        requires place { data_first self.old.geometry tier ≤ first }
        requires inside { 4096 * first + length bytes.now ≤ 4096 * tier_blocks self.old.geometry tier }

        // At each moment a stop leaves the tier as it might before, torn in the run, and the other tiers as it might before.
        ensures any_moment { self.old.failed ≡ false → Since tier (TornFrom (M.left self.old.media (M.moment self.old.media) tier) (4096 * first) (length bytes.now))
            (M.moment self.old.media) (M.moment self.new.media) (M.left self.old.media) (M.left self.new.media) }
        // Of the fast tier it leaves the blocks outside the run.
        ensures blocks_stay { self.old.failed ≡ false → (c : List ℕ) → LeftSince (M.left self.new.media) (M.moment self.new.media) (M.moment self.old.media) Fast c
            → OutsideRunFrom self.old.geometry (M.left self.old.media (M.moment self.old.media) Fast) first (length bytes.now) c }
        ensures written { OnOk result (Puts tier (overwritten (M.seen self.old.media tier) (4096 * first) bytes.now) (M.seen self.old.media) (M.seen self.new.media)) }
        ensures outside { OnOk result (OutsideRun first (length bytes.now) (M.seen self.old.media Fast) (M.seen self.new.media Fast)) }
        ensures one_call { OnOk result (M.moment self.new.media ≡ M.moment self.old.media + 1) }
        ensures at_most { M.moment self.new.media ≤ M.moment self.old.media + 1 }

        ensures only { IfErr result (λ e. e ≡ DeviceFault) }
        ensures fault { OnErr result ((self.new.failed ≡ true) × ((self.old.failed ≡ true) ⊎ Rose (M.faults self.old.media) (M.faults self.new.media))) }
        ensures quiet { OnOk result (M.faults self.new.media ≡ M.faults self.old.media) }
        ensures going { OnOk result ((self.old.failed ≡ false) × (self.new.failed ≡ false)) }
        ensures stays_failed { self.old.failed ≡ true → (result ≡ Err DeviceFault) × (self.new ≡ self.old) }
        ensures geometry { self.new.geometry ≡ self.old.geometry }
        ensures lengths { SameLengths (M.seen self.old.media) (M.seen self.new.media) }
        ensures faults { M.faults self.old.media ≤ M.faults self.new.media }
        ensures one_fault { M.faults self.new.media ≤ M.faults self.old.media + 1 }
    {
        if self.failed {
            return Err(JournalError::DeviceFault);
        }
        match put(&mut self.media, tier, 4096 * first as usize, bytes) {
            Ok(()) => Ok(()),
            Err(_) => {
                self.failed = true;
                Err(JournalError::DeviceFault)
            }
        }
    }

    /// Waits until what was written to a tier is kept: after it, a stop leaves of the tier what a read gives.
    pub fn fence(&mut self, tier: Tier) -> Result<(), JournalError>
        // At each moment a stop leaves what it might before.
        ensures any_moment { Since tier (M.left self.old.media (M.moment self.old.media) tier) (M.moment self.old.media) (M.moment self.new.media) (M.left self.old.media) (M.left self.new.media) }
        ensures rests { OnOk result (AtRest (M.seen self.new.media) (M.left self.new.media (M.moment self.new.media)) tier) }
        ensures seen { OnOk result ((t : Tier) → M.seen self.new.media t ≡ M.seen self.old.media t) }
        ensures one_call { OnOk result (M.moment self.new.media ≡ M.moment self.old.media + 1) }
        ensures at_most { M.moment self.new.media ≤ M.moment self.old.media + 1 }

        ensures only { IfErr result (λ e. e ≡ DeviceFault) }
        ensures fault { OnErr result ((self.new.failed ≡ true) × ((self.old.failed ≡ true) ⊎ Rose (M.faults self.old.media) (M.faults self.new.media))) }
        ensures quiet { OnOk result (M.faults self.new.media ≡ M.faults self.old.media) }
        ensures going { OnOk result ((self.old.failed ≡ false) × (self.new.failed ≡ false)) }
        ensures stays_failed { self.old.failed ≡ true → (result ≡ Err DeviceFault) × (self.new ≡ self.old) }
        ensures geometry { self.new.geometry ≡ self.old.geometry }
        ensures lengths { SameLengths (M.seen self.old.media) (M.seen self.new.media) }
        ensures faults { M.faults self.old.media ≤ M.faults self.new.media }
        ensures one_fault { M.faults self.new.media ≤ M.faults self.old.media + 1 }
    {
        if self.failed {
            return Err(JournalError::DeviceFault);
        }
        match settle(&mut self.media, tier) {
            Ok(()) => Ok(()),
            Err(_) => {
                self.failed = true;
                Err(JournalError::DeviceFault)
            }
        }
    }

    /// What a stop may leave now, between two calls: a content of this geometry, whose home blocks stand in their places. What
    /// a read gives is such a content.
    pub fn left_now(&self)
        ensures sizes { self.now.failed ≡ false → (t : Tier) → length (M.seen self.now.media t) ≡ 4096 * tier_blocks self.now.geometry t }
        ensures journal { self.now.failed ≡ false → (c : List ℕ) → M.left self.now.media (M.moment self.now.media) Fast c → IsJournal self.now.geometry c }
        ensures in_place { self.now.failed ≡ false → (c : List ℕ) (k : ℕ) → M.left self.now.media (M.moment self.now.media) Fast c → is_home k ≡ true → home c k ≡ block_of c k }
    {
        // For the proof: a read opens the type, whose invariant is what is said here.
        let _ = &self.failed;
    }

    /// The sizes of the medium.
    pub fn geometry(&self) -> Geometry
        ensures { result ≡ self.now.geometry }
    {
        self.geometry
    }

    /// Whether a device has failed since the medium was opened.
    pub fn has_failed(&self) -> bool
        ensures { result ≡ self.now.failed }
    {
        self.failed
    }

    /// The medium beneath.
    pub fn into_media(self) -> M
        ensures { result ≡ self.media }
    {
        self.media
    }
}

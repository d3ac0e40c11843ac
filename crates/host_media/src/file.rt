// A medium over a file of the operating system, with a mirror in memory.
ghost use Rattle.std.specs.Prelude.{◌≡◌, ◌≢◌, ◌≤◌, ◌<◌, ◌+◌, ◌^◌, ◌++◌, List, ℕ, length, take, drop, IfOk, IsOk, OnOk, OnErr, IsErrOf, true, false};
ghost use Rattle.tier_device.specs.declared.media.Tier.{Tier};
ghost use Rattle.tier_device.specs.declared.media.MediaError.TheVariants.{OutOfRange};
ghost use Rattle.tier_device.specs.Rows.{row};
ghost use Rattle.tier_device.specs.Media.{overwritten, Puts, Keeps, Tears, TearsAll, Settles, HasCause, InRange};
ghost use Rattle.host_media.specs.Cover.{Fails};
ghost use Rattle.host_media.specs.Place.{total};
ghost use Rattle.host_media.specs.Mirror.{mirrored_failed};
ghost use Rattle.host_media.specs.FileBytes.{known};
ghost use Rattle.host_media.specs.FileRange.{range_begin, range_changes, range_told};
ghost use Rattle.host_media.specs.Images.{content_bytes};

use crate::file_range::FileRange;
use crate::mirror::Mirrored;
use tier_device::{Media, MediaError, Tier, Tiers, lies_within};

/// A medium whose tiers lie in a file, from a place of it on, the fast one first. Reads come from a mirror in memory; a write goes
/// to the mirror and to the file, and a fence ends with the file's data synced, where anything of the tier was written since the
/// last sync.
/// After a write or a sync that failed each call in range is a device fault, until the file is opened again: the system may
/// have dropped what it was given.
///
/// Several media may lie in one file (`DiskFile`). After a sync that failed for another one it fails in the same way, at its next
/// fence that has something to sync.
#[derive(Drop)]
pub struct FileMedia {
    inner: Mirrored,
    faults: u64,
    ghost counted: { mirrored_failed inner ≡ true → 0 < faults },
    ghost few: { faults < 2 ^ 64 },
}

impl FileMedia {
    ghost use Rattle.host_media.specs.File.{file_seen, file_left, file_moment, file_failed, failures, kept_by_system, file_begin, file_changes, file_told, IsOpened};

    // The medium over a range of an open file that was synced, of which a read gives these tiers.
    pub(crate) fn of(range: FileRange, tiers: Tiers) -> Self
        requires fits { range_begin range + total tiers < 2 ^ 63 }
        requires stands { range_told range ≡ known (content_bytes (row tiers)) }
        ensures tiers { result.inner.tiers ≡ tiers }
        ensures begin { file_begin result ≡ range_begin range }
        ensures changes { file_changes result ≡ range_changes range }
        ensures opened { IsOpened result }
    {
        FileMedia {
            inner: Mirrored::of(range, tiers),
            faults: 0,
        }
    }

    /// The bytes of a tier, as the mirror has them.
    pub fn bytes(&self, tier: Tier) -> &[u8]
        ensures { result.now ≡ file_seen self.now tier }
    {
        self.inner.tiers.bytes(tier)
    }

    /// Whether a write or a sync has failed, so that each call in range is a device fault.
    pub fn is_failed(&self) -> bool
        ensures { result ≡ file_failed self.now }
    {
        self.inner.is_failed()
    }

    /// Until a call of it has failed, what was last read or written at each place of its range of the file is just what a read of its tiers
    /// gives, one behind the other.
    pub fn stands_in_file(&self)
        ensures { file_failed self.now ≡ false → file_told self.now ≡ known (content_bytes (file_seen self.now)) }
    {}

    /// Each content that a stop may leave of the file, by what the system was given and the syncs that it answered with success,
    /// is one that the device model allows.
    pub fn is_covered(&self)
        ensures { (t : Tier) (c : List ℕ) → kept_by_system self.now t c → ∥ file_left self.now (file_moment self.now) t c ∥₁ }
    {}
}

impl Media for FileMedia {
    ghost use Rattle.host_media.specs.File.{file_seen, file_moment, file_left, file_seen_now, file_sized, file_failed, failures, is_pending, given_to_system, file_begin};

    ghost seen = { file_seen };

    ghost moment = { file_moment };

    ghost left = { file_left };

    ghost faults = { failures };

    ghost seen_now = { file_seen_now };

    ghost few = { λ m. m.few };

    ghost sized = { file_sized };

    fn size(&self, tier: Tier) -> usize {
        self.bytes(tier).len()
    }

    fn read(&mut self, tier: Tier, at: usize, out: &mut [u8]) -> Result<(), MediaError>
        ensures range { InRange (length (file_seen self.old tier)) at (length out.old) result self.old self.new }
        ensures bytes { OnOk result (out.new ≡ take (length out.old) (drop at (file_seen self.old tier))) }
        ensures refused { OnErr result (out.new ≡ out.old) }
        ensures seen { (t : Tier) → file_seen self.new t ≡ file_seen self.old t }
        ensures clock { file_moment self.new ≡ file_moment self.old }
        ensures past { Keeps (file_moment self.old) (file_moment self.new) (file_left self.old) (file_left self.new) }
        ensures cause { HasCause (failures self.old) (failures self.new) result }
        ensures failed { Fails (file_failed self.old) (file_failed self.new) result }
        ensures place { file_begin self.new ≡ file_begin self.old }
        ensures pending { (t : Tier) → is_pending self.new t ≡ is_pending self.old t }
        ensures quiet { given_to_system self.new ≡ given_to_system self.old }
    {
        let size = self.bytes(tier).len();
        if !lies_within(at, out.len(), size) {
            return Err(MediaError::OutOfRange);
        }
        if self.inner.is_failed() {
            self.faults = self.faults.saturating_add(1);
            return Err(MediaError::DeviceFault);
        }
        out.copy_from_slice(&self.bytes(tier)[at..at + out.len()]);
        Ok(())
    }

    fn write(&mut self, tier: Tier, at: usize, bytes: &[u8]) -> Result<(), MediaError>
        ensures range { InRange (length (file_seen self.old tier)) at (length bytes.now) result self.old self.new }
        ensures written { OnOk result (Puts tier (overwritten (file_seen self.old tier) at bytes.now) (file_seen self.old) (file_seen self.new)) }
        ensures lengths { (t : Tier) → length (file_seen self.new t) ≡ length (file_seen self.old t) }
        ensures clock { OnOk result (file_moment self.new ≡ file_moment self.old + 1) }
        ensures past { Keeps (file_moment self.old) (file_moment self.new) (file_left self.old) (file_left self.new) }
        ensures left { Tears tier at (length bytes.now) (file_left self.old (file_moment self.old)) (file_left self.new (file_moment self.new)) }
        ensures all_left { OnOk result (TearsAll tier at (length bytes.now) (file_left self.old (file_moment self.old)) (file_left self.new (file_moment self.new))) }
        ensures cause { HasCause (failures self.old) (failures self.new) result }
        ensures failed { Fails (file_failed self.old) (file_failed self.new) result }
        ensures place { file_begin self.new ≡ file_begin self.old }
        ensures pending { (t : Tier) → t ≢ tier → is_pending self.new t ≡ is_pending self.old t }
    {
        let size = self.bytes(tier).len();
        if !lies_within(at, bytes.len(), size) {
            return Err(MediaError::OutOfRange);
        }
        if self.inner.is_failed() {
            self.faults = self.faults.saturating_add(1);
            return Err(MediaError::DeviceFault);
        }
        match self.inner.write(tier, at, bytes) {
            Ok(()) => Ok(()),
            Err(_) => {
                self.faults = self.faults.saturating_add(1);
                Err(MediaError::DeviceFault)
            }
        }
    }

    fn fence(&mut self, tier: Tier) -> Result<(), MediaError>
        ensures only { IsErrOf result OutOfRange → ⊥ }
        ensures seen { OnOk result ((t : Tier) → file_seen self.new t ≡ file_seen self.old t) }
        ensures lengths { (t : Tier) → length (file_seen self.new t) ≡ length (file_seen self.old t) }
        ensures clock { OnOk result (file_moment self.new ≡ file_moment self.old + 1) }
        ensures past { Keeps (file_moment self.old) (file_moment self.new) (file_left self.old) (file_left self.new) }
        ensures left { (t : Tier) (c : List ℕ) → file_left self.new (file_moment self.new) t c → file_left self.old (file_moment self.old) t c }
        ensures settled { OnOk result (Settles tier (file_seen self.old) (file_left self.old (file_moment self.old)) (file_left self.new (file_moment self.new))) }
        ensures cause { HasCause (failures self.old) (failures self.new) result }
        ensures failed { Fails (file_failed self.old) (file_failed self.new) result }
        ensures place { file_begin self.new ≡ file_begin self.old }
        ensures synced { OnOk result (is_pending self.new tier ≡ false) }

        // Where nothing of the tier was written since the last sync, it makes no call of the system, and succeeds.
        ensures quiet { is_pending self.old tier ≡ false → given_to_system self.new ≡ given_to_system self.old }
        ensures sure { is_pending self.old tier ≡ false → file_failed self.old ≡ false → IsOk result }
    {
        if self.inner.is_failed() {
            self.faults = self.faults.saturating_add(1);
            return Err(MediaError::DeviceFault);
        }
        match self.inner.fence(tier) {
            Ok(()) => Ok(()),
            Err(_) => {
                self.faults = self.faults.saturating_add(1);
                Err(MediaError::DeviceFault)
            }
        }
    }
}

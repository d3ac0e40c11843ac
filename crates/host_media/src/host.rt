// The calls that the system gets of an open file. Each is noted with its answer.
ghost use Rattle.std.specs.Prelude.{◌≡◌, ◌≤◌, ◌+◌, length, OnOk, OnErr, is_ok, not, true, false};
ghost use Rattle.tier_device.specs.DeviceCall.{Write};
ghost use Rattle.host_media.specs.FileBytes.{known, unknown, with_told};
ghost use Rattle.host_media.specs.FileRange.{range_begin, range_told, range_writes};
ghost use Rattle.host_media.specs.History.{and_then, after_sync, initial_history};
ghost use Rattle.host_media.specs.Place.{begin_of};

use crate::file_range::FileRange;
use crate::past::{Note, Past};
use std::io;
use tier_device::{Tier, Tiers};

/// Three tiers in a range of a file, the fast one first. Their past has each write that the system was given and each sync that it
/// answered with success, which is a fence of all tiers. After a call that failed it is given no other.
#[derive(Drop)]
pub(crate) struct Host {
    range: FileRange,
    past: Past,
    pub(crate) failed: bool,
}

impl Host {
    /// Tiers in a range of an open file that was synced, of which a read gives these bytes.
    pub(crate) fn of(range: FileRange, tiers: &Tiers) -> Self
        ensures range { result.range ≡ range }
        ensures past { result.past.history ≡ initial_history tiers.now }
        ensures works { result.failed ≡ false }
    {
        Host {
            range,
            past: Past::of(tiers),
            failed: false,
        }
    }

    /// Gives the system bytes of a tier, which lie at a place of the range. Where it fails any part of them may be written.
    pub(crate) fn write(
        &mut self,
        tier: Tier,
        at: usize,
        bytes: &[u8],
        place: usize,
    ) -> io::Result<()>
        requires works { self.old.failed ≡ false }
        requires place { place ≡ begin_of self.old.past.history.first tier + at }
        requires within { place + length bytes.now ≤ length (range_told self.old.range) }
        ensures begin { range_begin self.new.range ≡ range_begin self.old.range }
        ensures written { OnOk result (range_told self.new.range ≡ with_told (range_told self.old.range) place (known bytes.now)) }
        ensures torn { OnErr result (range_told self.new.range ≡ with_told (range_told self.old.range) place (unknown (length bytes.now))) }
        ensures once { range_writes self.new.range ≡ range_writes self.old.range + 1 }
        ensures past { self.new.past.history ≡ and_then self.old.past.history (Write tier at bytes.now) }
        ensures failed { self.new.failed ≡ not (is_ok result) }
    {
        self.past = self.past.then(&Note::Write { tier, at, bytes });
        let answer = self.range.write(place, bytes);
        self.failed = !answer.is_ok();
        answer
    }

    /// Has the system keep all that it was given. That it did, where it succeeded, is believed.
    pub(crate) fn sync(&mut self) -> io::Result<()>
        requires works { self.old.failed ≡ false }
        ensures range { self.new.range ≡ self.old.range }
        ensures kept { OnOk result (self.new.past.history ≡ after_sync self.old.past.history) }
        ensures lost { OnErr result (self.new.past.history ≡ self.old.past.history) }
        ensures failed { self.new.failed ≡ not (is_ok result) }
    {
        let answer = self.range.sync_data();
        match answer {
            Ok(()) => self.past = synced_past(&self.past),
            Err(_) => self.failed = true,
        }
        answer
    }
}

// A sync is a fence of all tiers.
fn synced_past(past: &Past) -> Past
    ensures { result.history ≡ after_sync past.now.history }
{
    let past = past.then(&Note::Fence { tier: Tier::Fast });
    let past = past.then(&Note::Fence { tier: Tier::Block });
    past.then(&Note::Fence { tier: Tier::Slow })
}

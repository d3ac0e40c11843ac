// Three tiers of an open file with their mirror in memory.
ghost use Rattle.std.specs.Prelude.{◌≡◌, ◌≤◌, ◌<◌, ◌+◌, ◌^◌, List, ℕ, length, IsOk, OnOk, OnErr, is_ok, not, true, false};
ghost use Rattle.tier_device.specs.declared.media.Tier.{Tier};
ghost use Rattle.tier_device.specs.Rows.{row};
ghost use Rattle.tier_device.specs.Media.{overwritten, Puts};
ghost use Rattle.tier_device.specs.DeviceCall.{Write, Fence};
ghost use Rattle.host_media.specs.History.{and_then, initial_history};
ghost use Rattle.host_media.specs.TierHistory.{shown_now, LeftNow};
ghost use Rattle.host_media.specs.Cover.{Covers};
ghost use Rattle.host_media.specs.FileBytes.{known};
ghost use Rattle.host_media.specs.FileRange.{range_begin, range_told};
ghost use Rattle.host_media.specs.Images.{content_bytes};
ghost use Rattle.host_media.specs.PendingTiers.{pending_in, SetsPending};
ghost use Rattle.host_media.specs.Place.{begin_of, total};

use crate::file_range::FileRange;
use crate::host::Host;
use crate::past::{Note, Past};
use crate::pending_tiers::Pending;
use std::io;
use tier_device::{Tier, Tiers};

/// Tiers of an open file with their mirror. `past` has the calls of the medium, and the host's the calls that the system got:
/// what the file may hold after a stop by those, it may hold by these. Until a call of the system fails each tier stands in its own place of
/// the file.
#[derive(Drop)]
pub(crate) struct Mirrored {
    host: Host,
    pub(crate) tiers: Tiers,
    pub(crate) past: Past,
    pending: Pending,
    ghost shows: { (t : Tier) → row tiers t ≡ shown_now past.history t },
    ghost mirrors: { (t : Tier) → row tiers t ≡ shown_now host.past.history t },
    ghost covered: { ∥ Covers host.past.history past.history ∥₁ },
    ghost settled: { (t : Tier) → pending_in pending t ≡ false → (c : List ℕ) → LeftNow host.past.history t c → c ≡ row tiers t },
    ghost fits: { range_begin host.range + total tiers < 2 ^ 63 },
    ghost stands: { host.failed ≡ false → range_told host.range ≡ known (content_bytes (row tiers)) },
}

impl Mirrored {
    // Tiers in a range of an open file that was synced, of which a read gives these bytes.
    pub(crate) fn of(range: FileRange, tiers: Tiers) -> Self
        requires fits { range_begin range + total tiers < 2 ^ 63 }
        requires stands { range_told range ≡ known (content_bytes (row tiers)) }
        ensures range { result.host.range ≡ range }
        ensures tiers { result.tiers ≡ tiers }
        ensures past { result.past.history ≡ initial_history tiers }
        ensures works { result.host.failed ≡ false }
        ensures synced { (t : Tier) → pending_in result.pending t ≡ false }
    {
        let host = Host::of(range, &tiers);
        let past = Past::of(&tiers);
        Mirrored {
            host,
            tiers,
            past,
            pending: Pending::none(),
        }
    }

    /// Whether a call of the system has failed.
    pub(crate) fn is_failed(&self) -> bool
        ensures { result ≡ self.now.host.failed }
    {
        self.host.failed
    }

    /// Writes to the mirror and to the file. Where the system fails the mirror has the bytes, and the file any part of them.
    pub(crate) fn write(&mut self, tier: Tier, at: usize, bytes: &[u8]) -> io::Result<()>
        requires fits { at + length bytes.now ≤ length (row self.old.tiers tier) }
        requires works { self.old.host.failed ≡ false }
        ensures begin { range_begin self.new.host.range ≡ range_begin self.old.host.range }
        ensures written { Puts tier (overwritten (row self.old.tiers tier) at bytes.now) (row self.old.tiers) (row self.new.tiers) }
        ensures past { self.new.past.history ≡ and_then self.old.past.history (Write tier at bytes.now) }
        ensures pending { SetsPending tier self.old.pending self.new.pending }
        ensures failed { self.new.host.failed ≡ not (is_ok result) }
    {
        let place = place_of(&self.tiers, tier, at);
        let answer = self.host.write(tier, at, bytes, place);
        self.tiers.overwrite(tier, at, bytes);
        self.past = self.past.then(&Note::Write { tier, at, bytes });
        self.pending = self.pending.with(tier);
        answer
    }

    /// Has the file's data synced where anything of the tier was written since the last sync.
    pub(crate) fn fence(&mut self, tier: Tier) -> io::Result<()>
        requires works { self.old.host.failed ≡ false }
        ensures begin { range_begin self.new.host.range ≡ range_begin self.old.host.range }
        ensures seen { self.new.tiers ≡ self.old.tiers }
        ensures fenced { OnOk result (self.new.past.history ≡ and_then self.old.past.history (Fence tier)) }
        ensures settled { OnOk result (pending_in self.new.pending tier ≡ false) }
        ensures quiet { pending_in self.old.pending tier ≡ false → self.new.host ≡ self.old.host }
        ensures sure { pending_in self.old.pending tier ≡ false → IsOk result }
        ensures lost { OnErr result (self.new.past.history ≡ self.old.past.history) }
        ensures failed { self.new.host.failed ≡ not (is_ok result) }
    {
        self.settle(tier)?;
        self.past = self.past.then(&Note::Fence { tier });
        Ok(())
    }

    fn settle(&mut self, tier: Tier) -> io::Result<()>
        requires works { self.old.host.failed ≡ false }
        ensures begin { range_begin self.new.host.range ≡ range_begin self.old.host.range }
        ensures seen { self.new.tiers ≡ self.old.tiers }
        ensures past { self.new.past.history ≡ self.old.past.history }
        ensures settled { OnOk result (pending_in self.new.pending tier ≡ false) }
        ensures quiet { pending_in self.old.pending tier ≡ false → self.new.host ≡ self.old.host }
        ensures sure { pending_in self.old.pending tier ≡ false → IsOk result }
        ensures failed { self.new.host.failed ≡ not (is_ok result) }
    {
        if !self.pending.is_pending(tier) {
            return Ok(());
        }
        self.sync()
    }

    // After it nothing is pending.
    fn sync(&mut self) -> io::Result<()>
        requires works { self.old.host.failed ≡ false }
        ensures begin { range_begin self.new.host.range ≡ range_begin self.old.host.range }
        ensures seen { self.new.tiers ≡ self.old.tiers }
        ensures past { self.new.past.history ≡ self.old.past.history }
        ensures kept { OnOk result ((t : Tier) → pending_in self.new.pending t ≡ false) }
        ensures failed { self.new.host.failed ≡ not (is_ok result) }
    {
        self.host.sync()?;
        self.pending = Pending::none();
        Ok(())
    }
}

// Where a place of a tier lies in the range that has the tiers.
fn place_of(tiers: &Tiers, tier: Tier, at: usize) -> usize
    requires fits { total tiers.now < 2 ^ 63 }
    requires within { at ≤ length (row tiers.now tier) }
    ensures { result ≡ begin_of tiers.now tier + at }
{
    let fast = tiers.bytes(Tier::Fast).len();
    let block = tiers.bytes(Tier::Block).len();
    let before = match tier {
        Tier::Fast => 0,
        Tier::Block => fast,
        Tier::Slow => fast + block,
    };
    before + at
}

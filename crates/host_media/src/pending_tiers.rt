// Which tiers were written since they were last kept.
ghost use Rattle.std.specs.Prelude.{◌≡◌, true, false};
ghost use Rattle.host_media.specs.PendingTiers.{pending_in, SetsPending};
ghost use Rattle.tier_device.specs.declared.media.Tier.{Tier};

use tier_device::Tier;

/// For each tier, whether anything of it was written since the last sync of the file.
#[derive(Clone, Copy)]
pub(crate) struct Pending {
    fast: bool,
    block: bool,
    slow: bool,
}

impl Pending {
    // With no tier pending.
    pub(crate) fn none() -> Self
        ensures { (t : Tier) → pending_in result t ≡ false }
    {
        Pending {
            fast: false,
            block: false,
            slow: false,
        }
    }

    // Whether the tier was written since the last sync.
    pub(crate) fn is_pending(&self, tier: Tier) -> bool
        ensures { result ≡ pending_in self.now tier }
    {
        match tier {
            Tier::Fast => self.fast,
            Tier::Block => self.block,
            Tier::Slow => self.slow,
        }
    }

    // With this tier pending too.
    pub(crate) fn with(self, tier: Tier) -> Self
        ensures { SetsPending tier self result }
    {
        let mut more = self;
        match tier {
            Tier::Fast => more.fast = true,
            Tier::Block => more.block = true,
            Tier::Slow => more.slow = true,
        }
        more
    }
}

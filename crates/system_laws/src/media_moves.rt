//! Files that nobody uses are reclaimed, and runs of blocks are migrated.

ghost use Rattle.std.specs.Prelude.{ℕ};
ghost use Rattle.tier_device.specs.declared.media.Tier.{Tier};
ghost use Rattle.event_steps.specs.Effects.{Plays};
ghost use Rattle.event_steps.specs.Turns.{CanPlay};
ghost use Rattle.event_steps.specs.View.{SystemView};
ghost use Rattle.event_steps.specs.declared.event.Event.TheVariants.{Migrate, Reclaim};
ghost use Rattle.event_steps.specs.declared.outcome.Outcome.{Outcome};
ghost use Rattle.system_laws.specs.Steps.{IsBegunIn, IsStep};
ghost use Rattle.system_laws.specs.WorldView.{WorldView};

use tier_device::Media;

/// A file that has no name and that nobody has pinned is dropped from the shared area, or there is none, or a device fails: the tree
/// stays.
pub fn reclaimed_file_is_a_step<M: Media>()
    ensures { (v : WorldView M) (i : ℕ) (o : Outcome) (new : SystemView M) → IsBegunIn M.Media v new → CanPlay M.Media v.system (Reclaim i) → Plays M.Media v.system (Reclaim i) o new
        → IsStep M.Media v (Reclaim i) o (record { system = new; calls = v.calls }) }
{}

/// A run of a file's blocks goes down to a slower tier, or can't, or a device fails: the tree stays.
pub fn migrated_run_is_a_step<M: Media>()
    ensures { (v : WorldView M) (i first count : ℕ) (to : Tier) (o : Outcome) (new : SystemView M) → IsBegunIn M.Media v new → CanPlay M.Media v.system (Migrate i first count to) → Plays M.Media v.system (Migrate i first count to) o new
        → IsStep M.Media v (Migrate i first count to) o (record { system = new; calls = v.calls }) }
{}

//! A client asks the kernel.

ghost use Rattle.std.specs.Prelude.{ℕ};
ghost use Rattle.event_steps.specs.Effects.{MakesAt};
ghost use Rattle.event_steps.specs.Turns.{CanPlay};
ghost use Rattle.event_steps.specs.View.{SystemView};
ghost use Rattle.event_steps.specs.declared.event.Event.TheVariants.{Blocks, Fetch, GiveBack, Pin, Refill, Unpin};
ghost use Rattle.event_steps.specs.declared.outcome.Outcome.{Outcome};
ghost use Rattle.system_laws.specs.Leaves.{IsSettledAt};
ghost use Rattle.system_laws.specs.Steps.{IsBegunIn, IsStep};
ghost use Rattle.system_laws.specs.WorldView.{WorldView};

use tier_device::Media;

/// A client gets a copy of what stands at an inode that it holds, or is refused, also if a device of the kernel fails: the tree stays. No
/// failed try for that lease is being taken out, as `Client::holds` promises.
pub fn fetched_copy_is_a_step<M: Media>()
    ensures { (v : WorldView M) (c i : ℕ) (o : Outcome) (new : SystemView M) → IsBegunIn M.Media v new → CanPlay M.Media v.system (Fetch c i) → MakesAt M.Media v.system c (Fetch c i) o new → IsSettledAt v.system c i
        → IsStep M.Media v (Fetch c i) o (record { system = new; calls = v.calls }) }
{}

/// A client gets blocks of a file, or some of them, also of a file that is gone, or is refused: the tree stays. No failed try for that lease
/// is being taken out.
pub fn fetched_blocks_are_a_step<M: Media>()
    ensures { (v : WorldView M) (c i first count : ℕ) (o : Outcome) (new : SystemView M) → IsBegunIn M.Media v new → CanPlay M.Media v.system (Blocks c i first count) → MakesAt M.Media v.system c (Blocks c i first count) o new → IsSettledAt v.system c i
        → IsStep M.Media v (Blocks c i first count) o (record { system = new; calls = v.calls }) }
{}

/// A client is granted units and numbers, or refused: the tree stays.
pub fn refill_is_a_step<M: Media>()
    ensures { (v : WorldView M) (c units inodes : ℕ) (o : Outcome) (new : SystemView M) → IsBegunIn M.Media v new → CanPlay M.Media v.system (Refill c units inodes) → MakesAt M.Media v.system c (Refill c units inodes) o new
        → IsStep M.Media v (Refill c units inodes) o (record { system = new; calls = v.calls }) }
{}

/// A client gives back the units and numbers that it has not used, or is refused: the tree stays.
pub fn returned_units_are_a_step<M: Media>()
    ensures { (v : WorldView M) (c : ℕ) (o : Outcome) (new : SystemView M) → IsBegunIn M.Media v new → CanPlay M.Media v.system (GiveBack c) → MakesAt M.Media v.system c (GiveBack c) o new
        → IsStep M.Media v (GiveBack c) o (record { system = new; calls = v.calls }) }
{}

/// A client pins an inode, or is refused: the tree stays.
pub fn pinned_inode_is_a_step<M: Media>()
    ensures { (v : WorldView M) (c i : ℕ) (o : Outcome) (new : SystemView M) → IsBegunIn M.Media v new → CanPlay M.Media v.system (Pin c i) → MakesAt M.Media v.system c (Pin c i) o new
        → IsStep M.Media v (Pin c i) o (record { system = new; calls = v.calls }) }
{}

/// A client drops its pin of an inode that it has not open, or is refused: the tree stays.
pub fn dropped_pin_is_a_step<M: Media>()
    ensures { (v : WorldView M) (c i : ℕ) (o : Outcome) (new : SystemView M) → IsBegunIn M.Media v new → CanPlay M.Media v.system (Unpin c i) → MakesAt M.Media v.system c (Unpin c i) o new
        → IsStep M.Media v (Unpin c i) o (record { system = new; calls = v.calls }) }
{}

//! Whatever an event is.

ghost use Rattle.std.specs.Prelude.{◌≡◌, ◌≢◌};
ghost use Rattle.event_steps.specs.Effects.{Carries, Plays};
ghost use Rattle.event_steps.specs.Turns.{CanPlay};
ghost use Rattle.event_steps.specs.View.{SystemView};
ghost use Rattle.event_steps.specs.declared.event.Event.{Event};
ghost use Rattle.event_steps.specs.declared.outcome.Outcome.{Outcome};
ghost use Rattle.event_steps.specs.declared.outcome.Outcome.TheVariants.{Refused};
ghost use Rattle.event_steps.specs.declared.outcome.Refusal.TheVariants.{BadLog};
ghost use Rattle.system_laws.specs.Leaves.{HasMetIn, IsSettledIn};
ghost use Rattle.system_laws.specs.KeptCalls.{calls_then};
ghost use Rattle.system_laws.specs.Steps.{IsBegunIn, IsStep};
ghost use Rattle.system_laws.specs.WorldView.{WorldView};

use crate::deaths::{
    buried_client_is_a_step, dead_client_is_a_step, joined_client_is_a_step,
    settled_client_is_a_step,
};
use crate::denials::denied_call_is_a_step;
use crate::device_calls::stepped_call_is_a_step;
use crate::idle::idle_event_is_a_step;
use crate::leases::{
    asked_lease_is_a_step, given_lease_is_a_step, raised_lease_is_a_step, taken_lease_is_a_step,
};
use crate::media_moves::{migrated_run_is_a_step, reclaimed_file_is_a_step};
use crate::regions::{digested_region_is_a_step, sealed_region_is_a_step, wiped_region_is_a_step};
use crate::requests::{
    dropped_pin_is_a_step, fetched_blocks_are_a_step, fetched_copy_is_a_step,
    pinned_inode_is_a_step, refill_is_a_step, returned_units_are_a_step,
};
use crate::starts::started_call_is_a_step;
use tier_device::Media;

/// Every event that is played on a system that stands for a world is a step; one that is `Idle` is a step that changes nothing. None is
/// refused for a bad log.
///
/// Asked for beside what `System::play` promises: what holds of the system and its clients between two events, before it and after it
/// (`IsBegunIn`); that a client that takes or raises a lease has met each other one after it (`System::meet`); and that no failed try for
/// the lease of a client that fetches is being taken out before it (`Client::holds`).
pub fn played_event_is_a_step<M: Media>()
    ensures step { (v : WorldView M) (e : Event) (o : Outcome) (new : SystemView M) → IsBegunIn M.Media v new → Carries (CanPlay M.Media v.system e) (Plays M.Media v.system e o new) (new ≡ v.system) o → HasMetIn e new → IsSettledIn e v.system
        → IsStep M.Media v e o (record { system = new; calls = calls_then v.calls e o }) }
    ensures never_bad { (v : WorldView M) (e : Event) (o : Outcome) (new : SystemView M) → IsBegunIn M.Media v new → Carries (CanPlay M.Media v.system e) (Plays M.Media v.system e o new) (new ≡ v.system) o → o ≢ Refused BadLog }
{
    idle_event_is_a_step::<M>();
    started_call_is_a_step::<M>();
    stepped_call_is_a_step::<M>();
    denied_call_is_a_step::<M>();
    taken_lease_is_a_step::<M>();
    raised_lease_is_a_step::<M>();
    given_lease_is_a_step::<M>();
    asked_lease_is_a_step::<M>();
    fetched_copy_is_a_step::<M>();
    fetched_blocks_are_a_step::<M>();
    refill_is_a_step::<M>();
    returned_units_are_a_step::<M>();
    pinned_inode_is_a_step::<M>();
    dropped_pin_is_a_step::<M>();
    sealed_region_is_a_step::<M>();
    digested_region_is_a_step::<M>();
    wiped_region_is_a_step::<M>();
    reclaimed_file_is_a_step::<M>();
    migrated_run_is_a_step::<M>();
    dead_client_is_a_step::<M>();
    settled_client_is_a_step::<M>();
    buried_client_is_a_step::<M>();
    joined_client_is_a_step::<M>();
}

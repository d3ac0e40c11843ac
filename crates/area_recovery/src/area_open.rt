//! The shared medium is opened.

ghost use Rattle.std.specs.Prelude.{◌≡◌, ◌≢◌, ◌≤◌, ◌+◌, false, Some, IfOk, IfErr};
ghost use Rattle.tier_device.specs.declared.media.Tier.{Tier};
ghost use Rattle.tier_device.specs.declared.media.Tier.TheVariants.{Fast};
ghost use Rattle.tier_device.specs.Media.{Rose};
ghost use Rattle.tier_device.specs.AfterStop.{AtRest};
ghost use Rattle.recovery_laws.specs.layout.Places.{Sizes};
ghost use Rattle.recovery_laws.specs.batch_journal.Blocks.{opening_calls};
ghost use Rattle.recovery_laws.specs.batch_journal.Course.{Unmoved};
ghost use Rattle.recovery_laws.specs.batch_journal.Damage.{AwaitsReplay};
ghost use Rattle.recovery_laws.specs.batch_journal.Volume.{IsVolume};
ghost use Rattle.recovery_laws.specs.area_reader.Store.{disk, store_of};
ghost use Rattle.recovery_laws.specs.area_reader.Format.{IsOpenable};
ghost use Rattle.recovery_laws.specs.shared_area.AreaOpen.{SpellsNone, IsMediumDamage, TakesMemory};
ghost use Rattle.posix_calls.specs.Tree.{State};
ghost use Rattle.area_recovery.specs.declared.error.RecoveryError.TheVariants.{DeviceFault, Memory};
ghost use Rattle.area_recovery.specs.Errors.{OnDamage, IsOfArea};
ghost use Rattle.area_recovery.specs.FaultOrMemory.{IsFaultOrMemory};
ghost use Rattle.area_recovery.specs.Recovers.{Regions, Recovers};
ghost use Rattle.area_recovery.specs.Phases.{StaysRecovered, Whatever};

use crate::area_faults::area_fault;
use crate::error::RecoveryError;
use recovery_laws::in_shared_area::Shared;
use std::alloc::Global;
use tier_device::Media;

/// Opens the shared medium, at rest, as `Shared::reopen` does. Whatever a stop leaves meanwhile is recovered as what was read, with any regions.
///
/// `Damaged` exactly where the bytes spell no graph within the units, never where they are recovered; `Memory` where there was none. An open journal that is sound was replayed then, and nothing else was written. The medium is handed back with each refusal; where no
/// device has failed it is at rest, with the same blocks.
pub fn open_area<M: Media>(alloc: Global, medium: M) -> Result<Shared<M>, (RecoveryError, M)>
    requires rest { (t : Tier) → AtRest (M.seen medium) (M.left medium (M.moment medium)) t }

    ensures any_moment { IfOk result (λ a. StaysRecovered M.Media Whatever medium a.media) }
    ensures any_moment_refused { IfErr result (λ e. StaysRecovered M.Media Whatever medium e.1) }

    ensures volume { IfOk result (λ a. IsVolume a.geometry (M.seen medium)) }
    ensures volume_then { IfOk result (λ a. IsVolume a.geometry (M.seen a.media)) }
    ensures opens { IfOk result (λ a. IsOpenable a.geometry (store_of (M.seen medium))) }
    ensures blocks { IfOk result (λ a. disk M.Media a ≡ store_of (M.seen medium)) }
    ensures unfailed { IfOk result (λ a. a.failed ≡ false) }
    ensures calls { IfOk result (λ a. M.moment a.media ≡ M.moment medium + opening_calls (M.seen medium Fast)) }
    ensures quiet { IfOk result (λ a. M.faults a.media ≡ M.faults medium) }

    ensures never { IfErr result (λ e. (g : Sizes) (regions : Regions) (state : State) → Recovers g regions state (M.seen medium) → IsFaultOrMemory e.0) }
    ensures damaged { IfErr result (λ e. OnDamage e.0 (λ _ _. SpellsNone (M.seen medium))) }
    ensures named { IfErr result (λ e. OnDamage e.0 (IsMediumDamage (M.seen medium))) }
    ensures only { IfErr result (λ e. IsOfArea e.0) }
    ensures memory { IfErr result (λ e. e.0 ≡ Memory → TakesMemory (M.seen medium)) }
    ensures fault { IfErr result (λ e. e.0 ≡ DeviceFault → Rose (M.faults medium) (M.faults e.1)) }
    ensures quiet_refused { IfErr result (λ e. e.0 ≢ DeviceFault → M.faults e.1 ≡ M.faults medium) }
    ensures untouched { IfErr result (λ e. e.0 ≢ DeviceFault → (AwaitsReplay (M.seen medium) → ⊥) → Unmoved (M.moment medium) (M.moment e.1) (M.seen medium) (M.seen e.1) (M.left medium) (M.left e.1)) }
    ensures at_most { IfErr result (λ e. M.moment e.1 ≤ M.moment medium + opening_calls (M.seen medium Fast)) }
    ensures rests_refused { IfErr result (λ e. e.0 ≢ DeviceFault → (t : Tier) → AtRest (M.seen e.1) (M.left e.1 (M.moment e.1)) t) }
    ensures blocks_refused { IfErr result (λ e. e.0 ≢ DeviceFault → store_of (M.seen e.1) ≡ store_of (M.seen medium)) }
    ensures faults_refused { IfErr result (λ e. M.faults medium ≤ M.faults e.1) }
    ensures one_fault { IfErr result (λ e. M.faults e.1 ≤ M.faults medium + 1) }
{
    match Shared::reopen(alloc, medium) {
        Ok(area) => Ok(area),
        Err((error, medium)) => Err((area_fault(error), medium)),
    }
}

//! A system whose kernel's shared medium was looked at.

ghost use Rattle.std.specs.Prelude.{◌≡◌, Result};
ghost use Rattle.system_laws.specs.event_steps.View.{SystemView};
ghost use Rattle.system_laws.specs.area_reader.declared.error.AreaError.{AreaError};
ghost use Rattle.system_laws.specs.area_reader.Looks.{Looks};
ghost use Rattle.system_laws.specs.kernel_fs.KernelAnswers.{Answers};
ghost use Rattle.system_laws.specs.kernel_fs.declared.error.KernelError.{KernelError};
ghost use Rattle.system_laws.specs.Leaves.{KernelLeaves};
ghost use Rattle.system_laws.specs.Relation.{IsWorld};
ghost use Rattle.system_laws.specs.WorldTree.{world_tree};
ghost use Rattle.system_laws.specs.WorldView.{WorldView};

use tier_device::Media;

/// A system that was looked at stands for a world again, whose tree is the same.
pub(crate) fn looked_system_stands_for_a_world<M: Media, T>()
    ensures world { (v : WorldView M) (new : SystemView M) (result : Result T (KernelError AreaError)) → IsWorld M.Media v → KernelLeaves M.Media v.system.kernel → Answers v.system.kernel.area.failed v.system.kernel new.kernel result (Looks M.Media v.system.kernel.area new.kernel.area)
        → new.kernel.book ≡ v.system.kernel.book → new.kernel.opening ≡ v.system.kernel.opening → new.seats ≡ v.system.seats → IsWorld M.Media (record { system = new; calls = v.calls }) }
    ensures tree { (v : WorldView M) (new : SystemView M) (result : Result T (KernelError AreaError)) → Answers v.system.kernel.area.failed v.system.kernel new.kernel result (Looks M.Media v.system.kernel.area new.kernel.area)
        → new.seats ≡ v.system.seats → world_tree M.Media (record { system = new; calls = v.calls }) ≡ world_tree M.Media v }
{}

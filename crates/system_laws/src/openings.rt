//! The world that a system begins with.

ghost use Rattle.event_steps.specs.layout.declared.marks.Marks.{Marks};
ghost use Rattle.event_steps.specs.View.{SystemView};
ghost use Rattle.system_laws.specs.Idle.{IsIdleSystem};
ghost use Rattle.system_laws.specs.KeptCalls.{no_calls};
ghost use Rattle.system_laws.specs.Relation.{IsWorld};

use tier_device::Media;

/// A system that nobody uses, as its kernel and its clients are opened, stands for a world of which no call is started.
pub fn idle_system_stands_for_a_world<M: Media>()
    ensures { (v : SystemView M) (shared_marks : Marks) → IsIdleSystem M.Media v shared_marks → IsWorld M.Media (record { system = v; calls = no_calls }) }
{}

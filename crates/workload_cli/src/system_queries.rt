// What a script asks of a running system beside its events.
ghost use Rattle.std.specs.Prelude.{◌≡◌, ℕ, Bool, false, Ok, Option, Some, None, IfErr, IfOk, OnOk};
ghost use Rattle.tier_device.specs.declared.media.Tier.{Tier};
ghost use Rattle.posix_calls.specs.Tree.{Tree};
ghost use Rattle.call_driver.specs.event_steps.declared.outcome.Refusal.TheVariants as refusals;
ghost use Rattle.call_driver.specs.kernel_fs.declared.kernel.Figures.{Figures};
ghost use Rattle.script.specs.LineValues.{path_of};
ghost use Rattle.workload_cli.specs.Paths.{file_in};
ghost use Rattle.workload_cli.specs.AnswerText.{IsNoFile};

use crate::answer::Answer;
use call_driver::in_kernel_fs::Figures;
use script::PathText;
use std::alloc::Global;
use tier_device::Tier;

/// A running system that answers questions on its shared area, or says why it can't.
pub trait Running {
    /// Whether a device of the shared area has failed.
    ghost area_failed: { Self → Bool };

    /// The file tree of the shared area.
    ghost tree: { Self → Tree };

    /// The tier that has a logical block of an inode of that tree, if one does.
    ghost tier_in: { Self → ℕ → ℕ → Option Tier → Type 0 };

    /// How the units stand; none once a device of the shared area has failed.
    ghost figures_now: { Self → Option Figures };

    /// The shared area was read, and nothing else.
    ghost only_reads: { Self → Self → Type 0 };

    /// The inode of the file that a path leads to in the shared area.
    fn file_at(&mut self, alloc: Global, path: &PathText<'_>) -> Result<u32, Answer>
        ensures file { IfOk result (λ i. file_in (tree self.old) (path_of path.now) ≡ Ok i) }
        ensures none { IfErr result (IsNoFile (file_in (tree self.old) (path_of path.now)) (area_failed self.old) (area_failed self.new)) }
        ensures going { OnOk result ((area_failed self.old ≡ false) × (area_failed self.new ≡ false)) }
        ensures looks { only_reads self.old self.new };

    /// The tier that has a logical block of the file that a path leads to there; none where no tier does.
    fn tier_at(
        &mut self,
        alloc: Global,
        path: &PathText<'_>,
        block: u64,
    ) -> Result<Option<Tier>, Answer>
        ensures tier { IfOk result (λ tier. (i : ℕ) × (file_in (tree self.old) (path_of path.now) ≡ Ok i) × tier_in self.old i block tier) }
        ensures none { IfErr result (IsNoFile (file_in (tree self.old) (path_of path.now)) (area_failed self.old) (area_failed self.new)) }
        ensures going { OnOk result ((area_failed self.old ≡ false) × (area_failed self.new ≡ false)) }
        ensures looks { only_reads self.old self.new };

    /// What the shared tree costs, what the clients were given, and how many units there are. Refused once a device of the shared area has failed.
    fn figures(&self) -> Result<Figures, Answer>
        ensures figures { IfOk result (λ f. figures_now self.now ≡ Some f) }
        ensures failed { IfErr result (λ why. (why ≡ Answer.Refused refusals.KernelFailed) × (figures_now self.now ≡ None)) };
}

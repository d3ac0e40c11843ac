//! Where the machine's records meet those of the digester.

ghost use Rattle.std.specs.Prelude.{◌≡◌, ◌<◌, ◌≤◌, ◌+◌, ℕ, Bool, List, ◌∷◌, Some, true, length, take, drop};
ghost use Rattle.std.specs.List.{AllByRecursion};
ghost use Rattle.world_invariant.specs.file_graph.Graph.{Graph, after_effects, is_among};
ghost use Rattle.world_invariant.specs.log_record.Grammar.{IsRecord};
ghost use Rattle.world_invariant.specs.log_record.declared.format.Record.{Record};
ghost use Rattle.migrator.specs.batch_journal.Course.{Unmoved};
ghost use Rattle.digester.specs.coalescer.Records.{effects_in};
ghost use Rattle.digester.specs.RecordCover.{AreCovered, units_of};
ghost use Rattle.digester.specs.Plan.{IsFirstBad};
ghost use Rattle.digester.specs.SealedLog.{SealedView, IsSealed, done_to, undone};
ghost use Rattle.world_invariant.specs.Limits.{AreWithin};
ghost use Rattle.world_invariant.specs.Logs.{after_records, units_in};
ghost use Rattle.world_invariant.specs.ClientParts.{IsLogged};
ghost use Rattle.world_invariant.specs.Machine.{Machine, Sealed, IsRunning, StandsSealed, CanDigestNext, digest, undigested_sealed};
ghost use Rattle.kernel_fs.specs.Book.{Accounts, IsBookOf};
ghost use Rattle.kernel_fs.specs.RegionAccept.{HasAsManyWaiting, IsRegionOf};
ghost use Rattle.kernel_fs.specs.Run.{Entry, Digest, RunState, IsRun, generation_accepted_last};
ghost use Rattle.kernel_fs.specs.KernelView.{KernelView};
ghost use Rattle.kernel_fs.specs.MachineState.{IsKernelOf};

use tier_device::Media;

/// What the effects of records make of a graph is what the records make of it, one after the other.
pub fn effects_of_records_are_the_records()
    ensures { (g : Graph) (rs : List Record) → after_effects g (effects_in rs) ≡ after_records g rs }
{}

/// The units of records are the same number for the digester and for the machine.
pub fn units_of_records_are_one_number()
    ensures { (rs : List Record) → units_of rs ≡ units_in rs }
{}

/// What the machine has of a sealed region is all that a digest asks of its records: they are covered by what their client holds, and are paid for. So where the machine runs, no record of a region that
/// stands in it is bad.
pub fn sealed_records_are_covered()
    ensures covered { (held : List ℕ) (g : Graph) (writes : ℕ → Bool) (rs : List Record) → AreWithin g → AllByRecursion IsRecord rs → ((i : ℕ) → writes i ≡ true → is_among i held ≡ true) → IsLogged g writes rs → AreCovered held g rs }
    ensures never { (x : SealedView) (m : Machine) (s : Sealed) (n k : ℕ) → IsSealed x → IsRunning m → IsRegionOf x (m.kernel.accounts x.client).mark s → StandsSealed m.kernel.shared (m.kernel.accounts x.client) s
        → IsFirstBad x.held m.kernel.capacity m.kernel.shared (take n (undone x)) k → ⊥ }
{}

/// What the machine has of an accepted region as not digested are the log's records that are not, and it may digest the next ones.
pub fn accepted_records_may_be_digested()
    ensures undone { (x : SealedView) (m : Machine) (s : Sealed) → IsRegionOf x (m.kernel.accounts x.client).mark s → undigested_sealed (m.kernel.accounts x.client) s ≡ undone x }
    ensures next { (x : SealedView) (book : Accounts) (m : Machine) (s : Sealed) (n : ℕ) → IsSealed x → IsBookOf book m → HasAsManyWaiting book x → IsRegionOf x (m.kernel.accounts x.client).mark s
        → 0 < n → n ≤ length (undone x) → CanDigestNext m x.client s (take n (undone x)) (drop n (undone x)) }
{}

/// A digest of the next records keeps which region of the machine the log is of: the same one, with so many more records digested.
pub fn digest_keeps_its_region()
    ensures { (x : SealedView) (m : Machine) (s : Sealed) (n : ℕ) → IsRegionOf x (m.kernel.accounts x.client).mark s → n ≤ length (undone x)
        → IsRegionOf (done_to (x.done + n) x) ((digest m x.client (take n (undone x))).kernel.accounts x.client).mark s }
{}

/// In a run that begins with no record waiting, as one from an opening does, each digest is of the region of its client that was accepted last, by its generation.
pub fn digests_are_of_the_region_accepted_last()
    ensures { (first last : RunState) (es : List Entry) (c g : ℕ) (s : Sealed) (digested rest : List Record) → ((d : ℕ) → first.machine.accepted d ≡ (first.machine.kernel.accounts d).mark)
        → IsRun first (Digest c g s digested rest ∷ es) last → generation_accepted_last es c ≡ Some g }
{}

/// What leaves the book and moves nothing on the media keeps the machine that the kernel stands for: so do `fetch`, `blocks`, `tier_of` and `pick`, whatever they answer, and the refusals of the other calls but
/// a fault of a device.
pub fn unmoved_kernel_stands_for_its_machine<M: Media>()
    ensures { (old new : KernelView M) (m : Machine) → new.book ≡ old.book → new.area.geometry ≡ old.area.geometry
        → Unmoved (M.moment old.area.media) (M.moment new.area.media) (M.seen old.area.media) (M.seen new.area.media) (M.left old.area.media) (M.left new.area.media)
        → IsKernelOf M.Media old m → IsKernelOf M.Media new m }
{}

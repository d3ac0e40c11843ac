ghost use Rattle.std.specs.Prelude.{◌≡◌, ◌≢◌, ◌↔◌, ◌+◌, ◌≤◌, ℕ, List, [], Bool, true, false, drop, length};
ghost use Rattle.posix_calls.specs.Operations.{is_client};
ghost use Rattle.world_invariant.specs.file_graph.Graph.{Graph, is_among};
ghost use Rattle.world_invariant.specs.file_graph.Units.{charge};
ghost use Rattle.world_invariant.specs.log_record.declared.format.Record.{Record};
ghost use Rattle.world_invariant.specs.Limits.{AreWithin};
ghost use Rattle.world_invariant.specs.Logs.{IsNameless};
ghost use Rattle.world_invariant.specs.World.{Account};
ghost use Rattle.world_invariant.specs.BookSteps.{HasRoom, IsUnbooked};
ghost use Rattle.world_invariant.specs.KernelSteps.{CanReclaim};
ghost use Rattle.world_invariant.specs.Machine.{Machine, Sealed, IsRunning, accept, book_units, digest, unbook_units, undigested_sealed};
ghost use Rattle.world_invariant.specs.FormatWorld.{idle_world};
ghost use Rattle.kernel_fs.specs.Book.{Accounts, out_of, is_free, is_pinned, IsBookOf};
ghost use Rattle.kernel_fs.specs.Free.{count_of};
ghost use Rattle.kernel_fs.specs.Inodes.{has, members};
ghost use Rattle.kernel_fs.specs.Marks.{AreMarksAfter, AreMarksOf, IsWaiting};
ghost use Rattle.kernel_fs.specs.Nodes.{AreNodes};
ghost use Rattle.kernel_fs.specs.Run.{Entry, RunState, MayTake, StandsInMachine, LeadsBy, IsRun};
ghost use Rattle.kernel_fs.specs.Steps.{book_numbers, grant, opened_machine, take_back, unbook_numbers};

/// What a book tells of its machine: units fit there where they fit beside those that are out; a number may be granted there where it is free; and a file that has no name may
/// be reclaimed there where nobody has pinned it. While the machine runs, what is charged and what is out are within the capacity.
pub fn book_has_what_its_machine_has()
    ensures room { (book : Accounts) (m : Machine) (units : ℕ) → IsBookOf book m → HasRoom m.kernel units ↔ (charge m.kernel.shared + out_of book + units ≤ m.kernel.capacity) }
    ensures free { (book : Accounts) (m : Machine) (nodes : ℕ → Bool) (i : ℕ) → IsBookOf book m → AreNodes m.kernel.shared nodes → (is_free book nodes i ≡ true) ↔ IsUnbooked m.kernel i }
    ensures unpinned { (book : Accounts) (m : Machine) (i : ℕ) → IsBookOf book m → IsNameless (m.kernel.shared i) → (is_pinned book i ≡ false) ↔ CanReclaim m.kernel i }
    ensures fits { (book : Accounts) (m : Machine) → IsBookOf book m → IsRunning m → charge m.kernel.shared + out_of book ≤ m.kernel.capacity }
{}

/// A machine that is opened over a graph within the limits and the capacity is one that runs; where no record was ever digested it has the kernel of a world that nobody uses.
pub fn opened_machine_runs()
    ensures runs { (g : Graph) (capacity : ℕ) (marks : ℕ → ℕ) → AreWithin g → charge g ≤ capacity → IsRunning (opened_machine g capacity marks) }
    ensures idle { (g : Graph) (capacity : ℕ) → (opened_machine g capacity (λ c. 0)).kernel ≡ (idle_world capacity g).kernel }
{}

/// The members of a set are the inodes that it has, each once.
pub fn members_are_those_of_the_set()
    ensures among { (rows : List ℕ) (i : ℕ) → is_among i (members rows) ≡ has rows i }
    ensures once { (rows : List ℕ) → length (members rows) ≡ count_of (has rows) }
{}

/// Units and numbers that are granted at once, or given back, are so one after the other: a list of numbers, or a set of them.
pub fn granted_and_taken_back_one_by_one()
    ensures granted_set { (m : Machine) (c units : ℕ) (rows : List ℕ) → grant m c units (has rows) ≡ book_numbers (book_units m c units) c (members rows) }
    ensures taken_back_set { (m : Machine) (c units : ℕ) (rows : List ℕ) → take_back m c units (has rows) ≡ unbook_numbers (unbook_units m c units) c (members rows) }
    ensures granted { (m : Machine) (c units : ℕ) (is : List ℕ) → grant m c units (λ i. is_among i is) ≡ book_numbers (book_units m c units) c is }
    ensures taken_back { (m : Machine) (c units : ℕ) (is : List ℕ) → take_back m c units (λ i. is_among i is) ≡ unbook_numbers (unbook_units m c units) c is }
{}

/// Each keeps what holds of the machine.
pub fn grants_keep_the_book()
    ensures granted { (m : Machine) (c units : ℕ) (numbers : ℕ → Bool) → IsRunning m → is_client c ≡ true → HasRoom m.kernel units → ((i : ℕ) → numbers i ≡ true → IsUnbooked m.kernel i) → IsRunning (grant m c units numbers) }
    ensures taken_back { (m : Machine) (c units : ℕ) (numbers : ℕ → Bool) → IsRunning m → is_client c ≡ true → IsRunning (take_back m c units numbers) }
{}

/// A run of the machine keeps what holds of it, where each region that is digested stands when it is; and a run in which each stands is a run.
pub fn runs_keep_what_holds()
    ensures runs { (first last : RunState) (es : List Entry) → IsRunning first.machine → LeadsBy (λ r e. MayTake r e × StandsInMachine r.machine e) first es last → IsRunning last.machine }
    ensures is { (first last : RunState) (es : List Entry) → LeadsBy (λ r e. MayTake r e × StandsInMachine r.machine e) first es last → IsRun first es last }
{}

/// The marks of the media go with the machine's: they are those of a machine that was opened over them, where each stands before a region; they stay where a region is accepted; and those after a digest are
/// those of the machine after it. What the machine has of the sealed region whose records are waiting as not digested are its records behind those that the mark tells.
pub fn marks_go_with_the_machine()
    ensures opened { (g : Graph) (capacity : ℕ) (done marks : ℕ → ℕ) → ((c : ℕ) → is_client c ≡ true → done c ≡ 0) → AreMarksOf done (opened_machine g capacity marks) }
    ensures accepted { (done : ℕ → ℕ) (m : Machine) (c : ℕ) (s : Sealed) → AreMarksOf done m → (m.kernel.accounts c).mark ≤ s.past → s.records ≢ [] → AreMarksOf done (accept m c s) }
    ensures digested { (before after : ℕ → ℕ) (m : Machine) (c waiting : ℕ) (rs : List Record) → AreMarksOf before m → is_client c ≡ true → m.accepted c ≡ (m.kernel.accounts c).mark + waiting → length rs ≤ waiting → AreMarksAfter before after c waiting rs → AreMarksOf after (digest m c rs) }
    ensures undigested { (a : Account) (s : Sealed) (done waiting : ℕ) → IsWaiting s done waiting a.mark → undigested_sealed a s ≡ drop done s.records }
{}

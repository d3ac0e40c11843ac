// What regions store in which nothing counts.
ghost use Rattle.std.specs.Prelude.{◌≡◌, ℕ, List, [], true};
ghost use Rattle.recovery_laws.specs.Contents.{log_in};
ghost use Rattle.recovery_laws.specs.layout.Places.{Sizes};
ghost use Rattle.posix_calls.specs.Operations.{is_client};
ghost use Rattle.posix_calls.specs.Tree.{State};
ghost use Rattle.event_lists.specs.Courses.{Content};
ghost use Rattle.area_recovery.specs.Recovers.{Recovers, Regions, joined};
ghost use Rattle.area_recovery.specs.Silent.{AreMarked, AreSilent};

/// Under marks of these generations, of which no record is done, regions in which nothing counts have no records: whatever stands in
/// them, the same state is stored.
pub fn silent_regions_store_the_area()
    ensures none { (generations : List ℕ) (shared : Content) (regions : Regions) (client : ℕ) → AreMarked generations shared → AreSilent generations regions → is_client client ≡ true
        → log_in (joined shared regions) client ≡ [] }
    ensures same { (g : Sizes) (generations : List ℕ) (state : State) (shared : Content) (regions others : Regions) → AreMarked generations shared → AreSilent generations regions
        → AreSilent generations others → Recovers g regions state shared → Recovers g others state shared }
{}

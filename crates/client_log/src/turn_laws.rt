// The steps of a client's log, as steps of the world.
ghost use Rattle.std.specs.Prelude.{◌≡◌, ◌+◌, ℕ, true, false, length};
ghost use Rattle.posix_calls.specs.Operations.{is_client};
ghost use Rattle.world_invariant.specs.World.{Begun, World};
ghost use Rattle.world_invariant.specs.ClientSteps.{call_begun, after_reply};
ghost use Rattle.world_invariant.specs.RegionSteps as world;
ghost use Rattle.client_log.specs.Turns as log;
ghost use Rattle.client_log.specs.HasTurn.{HasTurn};

/// Where a log may hand its region over, its client may in the world, and both go on alike.
pub fn sealed_log_is_a_step()
    ensures may { (w : World) (c : ℕ) (t : log.Turn) → is_client c ≡ true → HasTurn t (w.clients c) → log.CanSeal t → world.CanSeal w c }
    ensures goes_on { (w : World) (c : ℕ) (t : log.Turn) → HasTurn t (w.clients c) → log.CanSeal t → HasTurn (log.sealed_turn t) ((world.region_sealed w c).clients c) }
{}

/// Where a region is away whose records are all digested, it may come back in the world, and both go on alike.
pub fn taken_back_region_is_a_step()
    ensures may { (w : World) (c : ℕ) (t : log.Turn) → is_client c ≡ true → HasTurn t (w.clients c) → t.other ≡ log.Away
        → (w.kernel.accounts c).mark ≡ (w.clients c).past + length (w.clients c).sealed → world.CanTakeBack w c }
    ensures goes_on { (w : World) (c : ℕ) (t : log.Turn) → HasTurn t (w.clients c) → HasTurn (log.taken_back t) ((world.taken_back w c).clients c) }
{}

/// A region that is back may be wiped in the world, and so may the current one where it is not wiped; both go on alike.
pub fn wiped_region_is_a_step()
    ensures may_other { (w : World) (c : ℕ) (t : log.Turn) → is_client c ≡ true → HasTurn t (w.clients c) → t.other ≡ log.Back → world.CanWipeOther w c }
    ensures other { (w : World) (c : ℕ) (t : log.Turn) → HasTurn t (w.clients c) → HasTurn (log.other_wiped t) ((world.other_wiped w c).clients c) }
    ensures may_current { (w : World) (c : ℕ) (t : log.Turn) → is_client c ≡ true → HasTurn t (w.clients c) → t.ready ≡ false → world.CanWipeCurrent w c }
    ensures current { (w : World) (c : ℕ) (t : log.Turn) → HasTurn t (w.clients c) → HasTurn (log.current_wiped t) ((world.current_wiped w c).clients c) }
{}

/// A record that is begun in the log is that of the call which its client begins.
pub fn begun_record_is_in_the_turn()
    ensures { (w : World) (c : ℕ) (t : log.Turn) (b : Begun) → HasTurn t (w.clients c) → HasTurn (log.record_begun t b.change) ((call_begun w c b).clients c) }
{}

/// Once it is appended, its client may answer the call.
pub fn appended_record_is_a_step()
    ensures { (w : World) (c : ℕ) (t : log.Turn) (b : Begun) → HasTurn t (w.clients c) → HasTurn (log.record_appended t b.change) ((after_reply w c b).clients c) }
{}

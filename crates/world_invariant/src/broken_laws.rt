//! What goes wrong in small worlds that break one part of the invariant each.

ghost use Rattle.std.specs.Prelude.{◌≡◌, ◌≢◌, ℕ, ◌<◌, List, [], ◌∷◌, length, false, None};
ghost use Rattle.posix_calls.specs.Operations.{Step, reply_of};
ghost use Rattle.posix_calls.specs.declared.limits.TheConstants.{MAX_FILE};
ghost use Rattle.call_effects.specs.Knowledge.{Agrees};
ghost use Rattle.call_effects.specs.Wholes.{IsSound};
ghost use Rattle.world_invariant.specs.Logs.{after_each, LogsAreApart};
ghost use Rattle.world_invariant.specs.World.{log_of, all_of, whole_graph, held_descriptors, world_state};
ghost use Rattle.world_invariant.specs.ClientParts.{RestsOnceSettled, StartsWiped, IsNumbered, IsBooked};
ghost use Rattle.world_invariant.specs.Parts.{WorldPart, Book, Each, LeasesLegal, WholeKnown, CopiesLeased, BlocksLeased, BegunHasEffects, HoldsOfWorld, NumbersFree, NumbersInRange, RecordsLeased, RecordsPaid, RecordsNameNone, RecordsKeepLimits, UnitsBooked, MadeOnce, GrantedUnused, WholeSound, NumbersInOneHand, NodesWithin, UnitsFit, OwnNumber, MadeBooked, GrantedBooked, OpenPinned, PinsBooked, BegunPlanned, BegunPinned, SettledClosed, SettledIdle, MarkNotPast, MarkNotBefore, AwayHasRecords, BackHasNone, UnwipedHasNone, UnwipedIsIdle, BreaksAlone};
ghost use Rattle.world_invariant.specs.Machine.{CanAccept, sealed_of};
ghost use Rattle.world_invariant.specs.ClientSteps.{CanAnswer, after_answer, CanBegin, IsBegun, after_reply};
ghost use Rattle.world_invariant.specs.LeaseSteps.{IsUnheld, CanFetch, CanForgetBlocks, write_taken, after_fetch, blocks_forgotten};
ghost use Rattle.world_invariant.specs.RegionSteps.{CanSeal, region_sealed, CanWipeOther, other_wiped, CanWipeCurrent, current_wiped};
ghost use Rattle.world_invariant.specs.KernelSteps.{CanDigest, records_digested, CanReclaim, after_reclaim};
ghost use Rattle.world_invariant.specs.BookSteps.{IsUnbooked, number_granted};
ghost use Rattle.world_invariant.specs.Burial.{CanBury, client_buried};
ghost use Rattle.world_invariant.specs.Halves.{IsOnItsWay, number_received};
ghost use Rattle.world_invariant.specs.Walk.{mkdir_a, made_world, handed_world};
ghost use Rattle.world_invariant.specs.UnlinkWalk.{open_a, unlink_a};
ghost use Rattle.world_invariant.specs.PairWalk.{write_7};
ghost use Rattle.world_invariant.specs.Stop.{Leaves, Stores};
ghost use Rattle.world_invariant.specs.BrokenParts.{broken_world};
ghost use Rattle.world_invariant.specs.BrokenWorlds.{unleased_world, block_watching, begun_reading, counted_record, taken_number, far_number, unbooked_number, used_number, unpinned_file, unbooked_node, still_open, both_counting, one_file, make_record, making_directory, drop_record, made_twice, to_be_named, past_limit, marked_past, granted_twice, watch_world, root_alone, half, misbegun, unpaid_record, overdrawn, unwiped_world, left_behind, marked_before, unpinned_open, rootless, large_file, overfull, stale, stat_root, no_entries, begun_unwiped, settled_opening, away_empty, misnumbered_world, unpinned_client, unpinned_known, unpinned_unlinked, unpinned_kept};

/// No part of the invariant follows from the others: for each there is a small world that lacks this part and has all others.
pub fn each_part_breaks_alone()
    ensures { (part : WorldPart) → BreaksAlone part (broken_world part) }
{}

/// Where two clients write one inode, which takes a lease that one of them doesn't hold, the order of their digests is seen.
pub fn writing_without_a_lease_is_seen()
    ensures broken { LogsAreApart both_counting → ⊥ }
    ensures seen { after_each both_counting one_file (1 ∷ 2 ∷ []) ≢ after_each both_counting one_file (2 ∷ 1 ∷ []) }
{}

/// Where a client makes two nodes of one number, a digest of the first records leaves the number free: another client gets it, and finds
/// a node there.
pub fn number_used_twice_is_free_between()
    ensures alone { BreaksAlone (Each MadeOnce) made_twice }
    ensures can { CanDigest made_twice 1 (making_directory ∷ drop_record ∷ []) (make_record ∷ []) }
    ensures free { IsUnbooked (records_digested made_twice 1 (making_directory ∷ drop_record ∷ [])).kernel 2 }
    ensures taken { Agrees ((number_granted (records_digested made_twice 1 (making_directory ∷ drop_record ∷ [])) 2 2).clients 2).knows (whole_graph (number_granted (records_digested made_twice 1 (making_directory ∷ drop_record ∷ [])) 2 2)) (held_descriptors (number_granted (records_digested made_twice 1 (making_directory ∷ drop_record ∷ [])) 2 2)) → ⊥ }
{}

/// Where a file is open that nobody has pinned, its reclaim is seen.
pub fn reclaim_of_an_open_file_is_seen()
    ensures alone { BreaksAlone (Each OpenPinned) unpinned_client }
    ensures can { CanReclaim unpinned_client.kernel 2 }
    ensures seen { world_state (after_reclaim unpinned_client 2) ≢ world_state unpinned_client }
{}

/// Where a record that is not digested gives a name to a file that has none, its reclaim is seen: what the record names is gone.
pub fn reclaim_of_a_file_to_be_named_is_seen()
    ensures alone { BreaksAlone (Each RecordsNameNone) to_be_named }
    ensures can { CanReclaim to_be_named.kernel 2 }
    ensures seen { world_state (after_reclaim to_be_named 2) ≢ world_state to_be_named }
{}

/// Where a mark stands past the sealed records, the undigested ones are the same for now; but once the region is sealed, its record
/// counts as digested, and an answered call is lost.
pub fn mark_past_its_records_loses_a_call()
    ensures alone { BreaksAlone (Each MarkNotPast) marked_past }
    ensures same { (c : ℕ) → all_of marked_past c ≡ all_of made_world c }
    ensures can { CanSeal marked_past 1 }
    ensures lost { world_state (region_sealed marked_past 1) ≢ world_state marked_past }
{}

/// Where a number is in two hands, one client's answer leaves the other with a number at which a node stands.
pub fn number_in_two_hands_is_taken()
    ensures alone { BreaksAlone (Book NumbersInOneHand) granted_twice }
    ensures begun { IsBegun granted_twice 1 mkdir_a }
    ensures taken { Agrees ((after_reply granted_twice 1 mkdir_a).clients 2).knows (whole_graph (after_reply granted_twice 1 mkdir_a)) (held_descriptors (after_reply granted_twice 1 mkdir_a)) → ⊥ }
{}

/// A copy that a client keeps without a lease is right for now, and stale after another client's answer.
pub fn copy_without_a_lease_goes_stale()
    ensures alone { BreaksAlone (Each CopiesLeased) (watch_world (λ i. false)) }
    ensures begun { IsBegun (watch_world (λ i. false)) 1 mkdir_a }
    ensures stale { Agrees ((after_reply (watch_world (λ i. false)) 1 mkdir_a).clients 2).knows (whole_graph (after_reply (watch_world (λ i. false)) 1 mkdir_a)) (held_descriptors (after_reply (watch_world (λ i. false)) 1 mkdir_a)) → ⊥ }
{}

/// So is one under a lease for reading, where another client holds the inode for writing beside it.
pub fn copy_beside_a_writer_goes_stale()
    ensures alone { BreaksAlone LeasesLegal (watch_world root_alone) }
    ensures begun { IsBegun (watch_world root_alone) 1 mkdir_a }
    ensures stale { Agrees ((after_reply (watch_world root_alone) 1 mkdir_a).clients 2).knows (whole_graph (after_reply (watch_world root_alone) 1 mkdir_a)) (held_descriptors (after_reply (watch_world root_alone) 1 mkdir_a)) → ⊥ }
{}

/// Where a begun record is not that of its call, the whole is not sound once it is answered.
pub fn record_of_no_call_breaks_the_whole()
    ensures alone { BreaksAlone (Each BegunPlanned) misbegun }
    ensures begun { IsBegun misbegun 1 half }
    ensures unsound { IsSound (whole_graph (after_reply misbegun 1 half)) (held_descriptors (after_reply misbegun 1 half)) → ⊥ }
{}

/// Where a record has no units for what it raises, its digest passes the capacity.
pub fn unpaid_record_passes_the_capacity()
    ensures alone { BreaksAlone (Each RecordsPaid) (overdrawn unpaid_record) }
    ensures can { CanDigest (overdrawn unpaid_record) 1 (unpaid_record ∷ []) [] }
    ensures passed { IsBooked (records_digested (overdrawn unpaid_record) 1 (unpaid_record ∷ [])).kernel → ⊥ }
{}

/// So does that of a record whose units are not in the book.
pub fn unbooked_units_pass_the_capacity()
    ensures alone { BreaksAlone (Each UnitsBooked) (overdrawn make_record) }
    ensures can { CanDigest (overdrawn make_record) 1 (make_record ∷ []) [] }
    ensures passed { IsBooked (records_digested (overdrawn make_record) 1 (make_record ∷ [])).kernel → ⊥ }
{}

/// Where the book has a number that a node of the shared graph has, its client takes it for a free one.
pub fn booked_number_of_a_node_is_taken()
    ensures alone { BreaksAlone (Book NumbersFree) taken_number }
    ensures can { IsOnItsWay taken_number 1 2 }
    ensures taken { Agrees ((number_received taken_number 1 2).clients 1).knows (whole_graph (number_received taken_number 1 2)) (held_descriptors (number_received taken_number 1 2)) → ⊥ }
{}

/// Where it has one past all inodes, so does the client.
pub fn booked_number_past_all_inodes_is_received()
    ensures alone { BreaksAlone (Book NumbersInRange) far_number }
    ensures can { IsOnItsWay far_number 1 2000 }
    ensures received { Agrees ((number_received far_number 1 2000).clients 1).knows (whole_graph (number_received far_number 1 2000)) (held_descriptors (number_received far_number 1 2000)) → ⊥ }
{}

/// Where a client has a number that is not in its account, another one gets it too, and finds a node there.
pub fn number_without_an_account_is_granted_again()
    ensures alone { BreaksAlone (Each GrantedBooked) unbooked_number }
    ensures can { IsUnbooked unbooked_number.kernel 2 }
    ensures taken { Agrees ((after_reply (number_granted unbooked_number 2 2) 1 mkdir_a).clients 2).knows (whole_graph (after_reply (number_granted unbooked_number 2 2) 1 mkdir_a)) (held_descriptors (after_reply (number_granted unbooked_number 2 2) 1 mkdir_a)) → ⊥ }
{}

/// Where a client still has a number of which a record of its made a node, it has it without an account once that is digested.
pub fn used_number_loses_its_account()
    ensures alone { BreaksAlone (Each GrantedUnused) used_number }
    ensures can { CanDigest used_number 1 (making_directory ∷ drop_record ∷ []) [] }
    ensures lost { IsNumbered ((records_digested used_number 1 (making_directory ∷ drop_record ∷ [])).kernel.accounts 1).numbers ((records_digested used_number 1 (making_directory ∷ drop_record ∷ [])).clients 1).knows.granted (log_of (records_digested used_number 1 (making_directory ∷ drop_record ∷ [])) 1) → ⊥ }
{}

/// Where a client counts on a pin that is not in the book, the file that it has open is reclaimed.
pub fn pin_without_the_book_is_no_pin()
    ensures alone { BreaksAlone (Each PinsBooked) unpinned_file }
    ensures can { CanReclaim unpinned_file.kernel 2 }
    ensures seen { world_state (after_reclaim unpinned_file 2) ≢ world_state unpinned_file }
{}

/// Where a record takes a node past a limit, its digest makes a shared graph that can't be spelled, also if the next record takes the node
/// back.
pub fn record_past_a_limit_is_digested()
    ensures alone { BreaksAlone (Each RecordsKeepLimits) past_limit }
    ensures can { CanDigest past_limit 1 (counted_record 2000 ∷ []) (counted_record 1 ∷ []) }
    ensures passed { IsBooked (records_digested past_limit 1 (counted_record 2000 ∷ [])).kernel → ⊥ }
{}

/// Where a record made a node of a number that is not in its client's account, another client gets the number.
pub fn number_of_a_new_node_is_granted_again()
    ensures alone { BreaksAlone (Each MadeBooked) unbooked_node }
    ensures can { IsUnbooked unbooked_node.kernel 2 }
    ensures taken { Agrees ((number_granted unbooked_node 2 2).clients 2).knows (whole_graph (number_granted unbooked_node 2 2)) (held_descriptors (number_granted unbooked_node 2 2)) → ⊥ }
{}

/// Where a settled client has a file open, its burial is seen.
pub fn burial_of_a_client_with_an_open_file_is_seen()
    ensures alone { BreaksAlone (Each SettledClosed) still_open }
    ensures can { CanBury still_open 1 }
    ensures seen { world_state (client_buried still_open 1) ≢ world_state still_open }
{}

/// Where a region that is not wiped has a record, its wipe loses an answered call.
pub fn wipe_of_a_written_region_loses_a_call()
    ensures alone { BreaksAlone (Each UnwipedHasNone) unwiped_world }
    ensures same { (c : ℕ) → all_of unwiped_world c ≡ all_of made_world c }
    ensures can { CanWipeCurrent unwiped_world 1 }
    ensures lost { world_state (current_wiped unwiped_world 1) ≢ world_state unwiped_world }
{}

/// So does that of a region that is back and has one.
pub fn wipe_of_a_region_that_is_back_loses_a_call()
    ensures alone { BreaksAlone (Each BackHasNone) left_behind }
    ensures same { (c : ℕ) → all_of left_behind c ≡ all_of made_world c }
    ensures can { CanWipeOther left_behind 1 }
    ensures lost { world_state (other_wiped left_behind 1) ≢ world_state left_behind }
{}

/// Where a mark stands before the sealed records, a digest of them leaves them in the log, and the number of the node that they make
/// is not in the book any more.
pub fn mark_before_its_records_loses_a_number()
    ensures alone { BreaksAlone (Each MarkNotBefore) marked_before }
    ensures same { (c : ℕ) → all_of marked_before c ≡ all_of handed_world c }
    ensures can { CanDigest marked_before 1 (mkdir_a.change ∷ []) [] }
    ensures lost { IsNumbered ((records_digested marked_before 1 (mkdir_a.change ∷ [])).kernel.accounts 1).numbers ((records_digested marked_before 1 (mkdir_a.change ∷ [])).clients 1).knows.granted (log_of (records_digested marked_before 1 (mkdir_a.change ∷ [])) 1) → ⊥ }
{}

/// Where a begun call opens a file that its client has not pinned, the file is open without a pin once it is answered; and when it has lost
/// its name, it is reclaimed, and the tree has lost it while it is open.
pub fn call_that_pinned_nothing_opens_a_file()
    ensures alone { BreaksAlone (Each BegunPinned) unpinned_open }
    ensures begun { IsBegun unpinned_open 1 open_a }
    ensures fetches { CanFetch (after_reply unpinned_open 1 open_a) 1 2 }
    ensures unlinks { CanBegin unpinned_known 1 unlink_a }
    ensures seals { CanSeal unpinned_unlinked 1 }
    ensures digests { CanDigest (region_sealed unpinned_unlinked 1) 1 (open_a.change ∷ unlink_a.change ∷ []) [] }
    ensures can { CanReclaim unpinned_kept.kernel 2 }
    ensures lost { world_state (after_reclaim unpinned_kept 2) ≢ world_state unpinned_kept }
{}

/// Where the whole is not sound, no recovery can go on from what a stop stores of it.
pub fn stop_of_an_unsound_whole_is_not_recoverable()
    ensures alone { BreaksAlone WholeSound rootless }
    ensures can { Leaves rootless (log_of rootless) }
    ensures lost { Stores rootless (log_of rootless) → ⊥ }
{}

/// Nor where a node is past a limit.
pub fn stop_with_a_node_past_a_limit_is_not_recoverable()
    ensures alone { (bytes : List ℕ) → MAX_FILE < length bytes → BreaksAlone (Book NodesWithin) (large_file bytes) }
    ensures can { (bytes : List ℕ) → Leaves (large_file bytes) (log_of (large_file bytes)) }
    ensures lost { (bytes : List ℕ) → MAX_FILE < length bytes → Stores (large_file bytes) (log_of (large_file bytes)) → ⊥ }
{}

/// Nor where more is charged than the capacity.
pub fn stop_past_the_capacity_is_not_recoverable()
    ensures alone { BreaksAlone (Book UnitsFit) overfull }
    ensures can { Leaves overfull (log_of overfull) }
    ensures lost { Stores overfull (log_of overfull) → ⊥ }
{}

/// Where a client has a copy that is not as the whole is, what it answers by that copy is no step of the tree.
pub fn answer_by_a_stale_copy_is_no_step()
    ensures alone { BreaksAlone WholeKnown stale }
    ensures can { CanAnswer stale 2 stat_root 0 no_entries }
    ensures wrong { Step (world_state stale) 2 stat_root (reply_of no_entries) (world_state (after_answer stale 2 0 no_entries)) → ⊥ }
{}

/// Where a call is begun in a region that is not wiped, its answer writes a record there, which a wipe would lose.
pub fn call_begun_in_a_stale_region_is_written_there()
    ensures alone { BreaksAlone (Each UnwipedIsIdle) begun_unwiped }
    ensures begun { IsBegun begun_unwiped 1 mkdir_a }
    ensures lost { StartsWiped ((after_reply begun_unwiped 1 mkdir_a).clients 1).ready ((after_reply begun_unwiped 1 mkdir_a).clients 1).current ((after_reply begun_unwiped 1 mkdir_a).clients 1).begun → ⊥ }
{}

/// Where a settled client has a call begun, its answer may leave it with an open file.
pub fn call_of_a_settled_client_opens_a_file()
    ensures alone { BreaksAlone (Each SettledIdle) settled_opening }
    ensures begun { IsBegun settled_opening 1 open_a }
    ensures lost { RestsOnceSettled ((after_reply settled_opening 1 open_a).clients 1).status ((after_reply settled_opening 1 open_a).clients 1).knows.own ((after_reply settled_opening 1 open_a).clients 1).begun → ⊥ }
{}

/// Where a region is away that has no record, the kernel never accepts it.
pub fn region_without_a_record_is_not_accepted()
    ensures alone { BreaksAlone (Each AwayHasRecords) away_empty }
    ensures never { (accepted : ℕ → ℕ) → CanAccept (record { kernel = away_empty.kernel; accepted = accepted }) 1 (sealed_of (away_empty.clients 1)) → ⊥ }
{}

/// Where a client takes itself for another one, what it opens is not found open.
pub fn call_under_another_number_opens_nothing()
    ensures alone { BreaksAlone (Each OwnNumber) misnumbered_world }
    ensures begun { IsBegun misnumbered_world 1 open_a }
    ensures lost { Agrees ((after_reply misnumbered_world 1 open_a).clients 1).knows (whole_graph (after_reply misnumbered_world 1 open_a)) (held_descriptors (after_reply misnumbered_world 1 open_a)) → ⊥ }
{}

/// Where a record touches an inode that its client doesn't hold for writing, another client takes the lease, and fetches a copy that is not
/// as the whole is.
pub fn record_without_a_lease_is_missed_by_a_fetch()
    ensures alone { BreaksAlone (Each RecordsLeased) unleased_world }
    ensures can { IsUnheld unleased_world 2 2 }
    ensures fetches { CanFetch (write_taken unleased_world 2 2) 2 2 }
    ensures stale { Agrees ((after_fetch (write_taken unleased_world 2 2) 2 2).clients 2).knows (whole_graph (after_fetch (write_taken unleased_world 2 2) 2 2)) (held_descriptors (after_fetch (write_taken unleased_world 2 2) 2 2)) → ⊥ }
{}

/// A block of a file that a client has without a lease is right for now, and stale after another client's answer.
pub fn block_without_a_lease_goes_stale()
    ensures alone { BreaksAlone (Each BlocksLeased) block_watching }
    ensures begun { IsBegun block_watching 1 write_7 }
    ensures stale { Agrees ((after_reply block_watching 1 write_7).clients 2).knows (whole_graph (after_reply block_watching 1 write_7)) (held_descriptors (after_reply block_watching 1 write_7)) → ⊥ }
{}

/// Where a call has begun a record without an effect, as one that reads would, its client may forget the blocks by which it was planned.
pub fn call_without_an_effect_loses_its_plan()
    ensures alone { BreaksAlone (Each BegunHasEffects) begun_reading }
    ensures can { CanForgetBlocks begun_reading 1 (λ i b. None) }
    ensures lost { HoldsOfWorld (Each BegunPlanned) (blocks_forgotten begun_reading 1 (λ i b. None)) → ⊥ }
{}

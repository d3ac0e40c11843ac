// What holds of all logs of eight clients.
ghost use Rattle.std.specs.Prelude.{◌≡◌, ◌<◌, ◌+◌, ◌++◌, ◌↔◌, ℕ, List, Option, None};
ghost use Rattle.posix_calls.specs.declared.limits.TheConstants.{MAX_CLIENTS};
ghost use Rattle.update_log.specs.log_record.declared.format.Record.{Record};
ghost use Rattle.update_log.specs.RecordCounts.{counted_records};
ghost use Rattle.update_log.specs.Frames.{records};
ghost use Rattle.world_invariant.specs.Logs.{LogsAreApart};
ghost use Rattle.log_survey.specs.Owners.{AreAdded, AreOwners, IsClear, TouchInodes, owner_among};

/// A table that is filled client by client, from 1 to 8, decides whether no inode is touched by the records of two: exactly then each
/// client's records touch no inode of a client before it. A client's records may be added in parts.
pub fn owners_decide_whether_logs_are_apart()
    ensures apart { (logs : ℕ → List Record) → LogsAreApart logs ↔ ((n : ℕ) → n < MAX_CLIENTS → IsClear (owner_among logs n) (n + 1) (logs (n + 1))) }

    // A table that was empty at first has the owners of the clients that were added so far.
    ensures none { (logs : ℕ → List Record) (own : ℕ → Option ℕ) → ((i : ℕ) → own i ≡ None) → AreOwners own logs 0 }
    ensures next { (logs : ℕ → List Record) (n : ℕ) (own more : ℕ → Option ℕ) → AreOwners own logs n → AreAdded own more (n + 1) (logs (n + 1)) → AreOwners more logs (n + 1) }
    ensures clear { (logs : ℕ → List Record) (n : ℕ) (own : ℕ → Option ℕ) → AreOwners own logs n → TouchInodes (logs (n + 1))
        → (IsClear own (n + 1) (logs (n + 1)) ↔ IsClear (owner_among logs n) (n + 1) (logs (n + 1))) }

    // What is added in two parts is added, and refused, as the whole is.
    ensures added_in_parts { (own part whole : ℕ → Option ℕ) (client : ℕ) (first second : List Record) → AreAdded own part client first → AreAdded part whole client second
        → AreAdded own whole client (first ++ second) }
    ensures clear_in_parts { (own part : ℕ → Option ℕ) (client : ℕ) (first second : List Record) → AreAdded own part client first → TouchInodes second
        → (IsClear own client (first ++ second) ↔ (IsClear own client first × IsClear part client second)) }
{}

/// The records of a region touch no number but those that an inode may have, whatever bytes it holds. So do those that count of two
/// regions, and each part of such a list.
pub fn counted_records_touch_inodes()
    ensures region { (content : List ℕ) → TouchInodes (records content) }
    ensures counted { (g done : ℕ) (regions : ℕ → List ℕ) → TouchInodes (counted_records g done regions) }
    ensures parts { (first second : List Record) → TouchInodes (first ++ second) → TouchInodes first × TouchInodes second }
{}

//! Where marks stand after a digest.

ghost use Rattle.std.specs.Prelude.{◌≡◌, ◌<◌, ◌≤◌, ◌+◌, ℕ, List, true, length, drop};
ghost use Rattle.std.specs.List.{list_all};
ghost use Rattle.posix_calls.specs.Operations.{is_client};
ghost use Rattle.shared_area.specs.layout.Marks.{fits_mark, fits_marks};
ghost use Rattle.update_log.specs.RecordCounts.{counted_records, records_in};
ghost use Rattle.digester.specs.MarkMoves.{is_mark, mark_after, mark_of, marks_after};

use posix_calls::client_index;
use shared_area::in_layout::{Mark, Marks};
use update_log::{digest_counts_fewer, wipe_counts_nothing};

/// The mark when `done` of the `total` records of a generation are digested: with the last of them it moves to the next generation.
/// Generations are counted modulo 2^64.
pub fn mark_after(generation: u64, done: u32, total: u32) -> Mark
    ensures { result ≡ mark_after generation done total }
{
    if done == total {
        Mark {
            generation: generation.wrapping_add(1),
            done: 0,
        }
    } else {
        Mark { generation, done }
    }
}

/// The mark of a client, from 1 to 8.
#[tactic(auto, using(crate::proofs::Stands::mark_there))]
pub fn mark_of(marks: &Marks, client: u32) -> Mark
    requires { is_client client ≡ true }
    ensures { result ≡ mark_of marks.now client }
{
    marks.clients[client_index(client)]
}

/// Whether a mark is another one.
pub fn is_mark(mark: Mark, other: Mark) -> bool
    ensures { result ≡ is_mark mark other }
{
    mark.generation == other.generation && mark.done == other.done
}

// The numbers of a mark have the widths of its fields.
fn mark_fits(mark: Mark)
    ensures { fits_mark mark ≡ true }
{}

// So do those of some marks.
fn marks_fit(marks: &[Mark])
    ensures { list_all fits_mark marks.now ≡ true }
{
    for mark in marks {
        mark_fits(*mark);
    }
}

/// The numbers of marks have the widths of their fields: so marks can be written as they are.
pub fn marks_can_be_written(marks: Marks)
    ensures { fits_marks marks ≡ true }
{
    let clients = marks.clients;
    marks_fit(&clients);
}

/// The marks after a digest that moves the mark of one client: those of the others stay, and there is one digest more. At its greatest
/// value their number stays.
pub fn marks_after(marks: Marks, client: u32, mark: Mark) -> Marks
    requires { is_client client ≡ true }
    ensures exact { result ≡ marks_after marks client mark }
    ensures fits { fits_marks result ≡ true }
{
    let mut clients = marks.clients;
    clients[client_index(client)] = mark;
    marks_fit(&clients);
    Marks {
        clients,
        digests: marks.digests.saturating_add(1),
    }
}

/// Some of a client's records that were digested do not count any more, and all that counted behind them do: also where the mark moves to the
/// next generation.
pub fn moved_mark_leaves_the_rest()
    ensures { (g done n : ℕ) (regions : ℕ → List ℕ) → 0 < n → done + n ≤ length (records_in regions g)
        → counted_records (mark_after g (done + n) (length (records_in regions g))).generation (mark_after g (done + n) (length (records_in regions g))).done regions ≡ drop n (counted_records g done regions) }
{
    // For the proof: two laws of what counts, from which this one follows.
    digest_counts_fewer();
    wipe_counts_nothing();
}

//! Which blocks of files a record may change, so that a block is laid over without looking at the effects of records that leave it as it is.
ghost use Rattle.std.specs.Prelude.{◌≡◌, ◌≤◌, ◌<◌, ◌+◌, ◌-◌, ◌*◌, ◌&&◌, ◌||◌, ℕ, [], ◌∷◌, false, min, nat_lt, if◌then◌else◌};
ghost use Rattle.std.specs.List.{AllByRecursion};
ghost use Rattle.posix_calls.specs.declared.limits.TheConstants.{UNIT_BYTES};
ghost use Rattle.client_plan.specs.log_record.Grammar.{FitsLimits};
ghost use Rattle.client_view.specs.RecordReach.{IsReachOf, may_change};

use client_plan::in_file_graph::Effect;
use posix_calls::UNIT_BYTES;

const UNIT: u64 = UNIT_BYTES as u64;

/// Which blocks of files a record may change.
#[derive(Clone, Copy)]
pub enum RecordReach {
    /// Those of any inode.
    AnyInode,
    /// Those of one inode.
    OneInode { inode: u32 },
    /// Those of one inode in which bytes from an offset on up to an end lie, and a short one before them.
    Written { inode: u32, start: u64, end: u64 },
}

impl RecordReach {
    /// Finds what effects reach.
    pub fn of(effects: &[Effect]) -> Self
        requires { AllByRecursion FitsLimits effects.now }
        ensures { IsReachOf effects.now result }
    {
        match effects {
            [effect] => reach_of(effect),
            _ => RecordReach::AnyInode,
        }
    }

    /// Whether a block of a file may be changed that has so many bytes.
    pub fn may_change(self, inode: u32, block: u32, len: usize) -> bool
        ensures { result ≡ may_change self inode block len }
    {
        match self {
            RecordReach::AnyInode => true,
            RecordReach::OneInode { inode: subject } => subject == inode,
            RecordReach::Written {
                inode: subject,
                start,
                end,
            } => subject == inode && reaches_block(start, end, block, len),
        }
    }

    /// The places of a run of blocks between which all lie that may be changed, where `whole` blocks at its front are whole: none before the
    /// first place, and none from the second on.
    pub fn places(self, inode: u32, first: u32, count: usize, whole: usize) -> (usize, usize)
        ensures before { (k : ℕ) → k < result.0 → (k < whole) × (may_change self inode (first + k) UNIT_BYTES ≡ false) }
        ensures behind { (k n : ℕ) → result.1 ≤ k → k < count → may_change self inode (first + k) n ≡ false }
        ensures within { result.1 ≤ count }
    {
        match self {
            RecordReach::AnyInode => (0, count),
            RecordReach::OneInode { inode: subject } => one_places(subject == inode, count),
            RecordReach::Written {
                inode: subject,
                start,
                end,
            } => {
                if subject != inode {
                    return (0, 0);
                }
                (
                    place_of(start / UNIT, first, whole),
                    place_of(end.div_ceil(UNIT), first, count),
                )
            }
        }
    }
}

// All places of a run, or none.
fn one_places(are_reached: bool, count: usize) -> (usize, usize)
    ensures { result ≡ (0, if are_reached then count else 0) }
{
    if are_reached { (0, count) } else { (0, 0) }
}

// The place of a block in a run from a first one on, at most a limit.
fn place_of(block: u64, first: u32, limit: usize) -> usize
    ensures { result ≡ min limit (block - first) }
{
    block.saturating_sub(first as u64).min(limit as u64) as usize
}

fn reach_of(effect: &Effect) -> RecordReach
    requires { FitsLimits effect.now }
    ensures { IsReachOf (effect.now ∷ []) result }
{
    match effect {
        Effect::Bytes { inode, at, bytes } => RecordReach::Written {
            inode: *inode,
            start: *at,
            end: *at + bytes.as_slice().len() as u64,
        },
        _ => RecordReach::OneInode {
            inode: effect.subjects().0,
        },
    }
}

// Whether bytes up to an end may change a block of so many bytes: one lies in it, or the gap before them.
fn reaches_block(start: u64, end: u64, block: u32, len: usize) -> bool
    ensures { result ≡ (nat_lt (UNIT_BYTES * block) end && (nat_lt start (UNIT_BYTES * block + UNIT_BYTES) || nat_lt len UNIT_BYTES)) }
{
    let first = UNIT * block as u64;
    first < end && (start < first + UNIT || len < UNIT_BYTES as usize)
}

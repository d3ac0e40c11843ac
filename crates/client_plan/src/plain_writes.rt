// A write for which nothing is lacking, as for most: it is planned at once, without its operation.
ghost use Rattle.std.specs.Prelude.{◌≡◌, ◌<◌, ◌≤◌, max, ℕ, [], IfNone, IfOk, IfSome};
ghost use Rattle.posix_calls.specs.declared.limits.TheConstants.{MAX_FILE};
ghost use Rattle.posix_calls.specs.Units.{file_units};
ghost use Rattle.call_effects.specs.log_record.Grammar.{is_write};
ghost use Rattle.call_effects.specs.Records.{file_rise};
ghost use Rattle.client_plan.specs.PlainWrite.{IsPlainWrite, IsWritable, has_place, written_by};
ghost use Rattle.client_plan.specs.declared.plain_writes.PlainWrite.{PlainWrite};

use crate::call_plan::first_unused;
use crate::supplies::Supplies;
use call_effects::in_file_graph::{Effect, Effects, is_inode};
use call_effects::in_log_record::Record;
use posix_calls::{MAX_FILE, MAX_TRANSFER, SharedBytes, TreeAnswers, UNIT_BYTES};
use std::alloc::AllocError;

// The bytes that the record of a write has beside those that are written.
const BESIDE: usize = 22;

/// Where a write goes, and by how many units it raises the file.
#[derive(Clone, Copy)]
pub struct PlainWrite {
    pub inode: u32,
    pub units: u32,
}

/// Plans a `pwrite` of `count` bytes at the offset `at`, by the descriptor `number`, that can begin at once: its lease, units, pin and room are there, and `record_of_write` makes its record. `None`: ask
/// `plan_call`. Takes no memory.
pub fn plain_write<T: TreeAnswers, S: Supplies>(
    tree: &T,
    has: &S,
    number: u32,
    at: u64,
    count: usize,
) -> Option<PlainWrite>
    ensures plain { IfSome result (IsPlainWrite (T.part tree.now) (S.holdings has.now) number at count) }
    ensures none { IfNone result ((w : PlainWrite) → IsPlainWrite (T.part tree.now) (S.holdings has.now) number at count w → ⊥) }
{
    let Some(inode) = writable_inode(has, number) else {
        return None;
    };
    if !is_write(at, count) || !has_place(has.room(), count) {
        return None;
    }
    let Some(size) = tree.file_size(inode) else {
        return None;
    };
    let units = growth(size, at + count as u64);
    if has.spare() < units {
        return None;
    }
    Some(PlainWrite { inode, units })
}

// What is open at a number, where it may be written and no pin has to be given back first.
fn writable_inode<S: Supplies>(has: &S, number: u32) -> Option<u32>
    ensures writable { IfSome result (IsWritable (S.holdings has.now) number) }
    ensures none { IfNone result ((i : ℕ) → IsWritable (S.holdings has.now) number i → ⊥) }
{
    let open = has.own().get(number)?;
    if !open.writes || !is_inode(open.inode) || !has.may_write(open.inode) {
        return None;
    }
    match first_unused(has.own(), has.pins()) {
        Some(_) => None,
        None => Some(open.inode),
    }
}

// Whether it is a write of some bytes that ends within the greatest file.
fn is_write(at: u64, count: usize) -> bool
    ensures { result ≡ is_write at count }
{
    1 <= count && count <= MAX_TRANSFER && at <= MAX_FILE && at + count as u64 <= MAX_FILE
}

// Whether there is room for its record.
fn has_place(most: Option<usize>, count: usize) -> bool
    ensures { result ≡ has_place most count }
{
    match most {
        Some(most) => BESIDE <= most && count <= most - BESIDE,
        None => false,
    }
}

// The rise of a file of a size that is written up to an end.
fn growth(size: u64, end: u64) -> u32
    requires { end ≤ MAX_FILE }
    ensures { result ≡ file_rise size (max size end) }
{
    if end <= size {
        return 0;
    }
    (file_units(end) - file_units(size)) as u32
}

fn file_units(len: u64) -> u64
    requires { len ≤ MAX_FILE }
    ensures units { result ≡ file_units len }
    ensures small { result < 1000 }
{
    1 + (len + (UNIT_BYTES as u64 - 1)) / UNIT_BYTES as u64
}

/// The record of a write, its effect in the empty list that the caller gives. Memory is taken where that has no room; the bytes are shared, not copied.
pub fn record_of_write(
    effects: Vec<Effect>,
    write: PlainWrite,
    at: u64,
    bytes: &SharedBytes,
) -> Result<Record, AllocError>
    requires empty { effects.items ≡ [] }
    ensures { IfOk result (λ entry. entry ≡ written_by write at bytes.now) }
{
    let mut effects = effects;
    effects.push(Effect::Bytes {
        inode: write.inode,
        at,
        bytes: bytes.share()?,
    })?;
    Ok(Record {
        units: write.units,
        effects: Effects::from_vec(effects),
    })
}

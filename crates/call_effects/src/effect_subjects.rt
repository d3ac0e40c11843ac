ghost use Rattle.std.specs.Prelude.{◌≡◌, ◌+◌, ◌<◌, ◌≤◌, ℕ, [], ◌∷◌, length, false, IfSome, IfNone, insert, if◌then◌else◌};
ghost use Rattle.std.specs.List.Sorted.{IsStrictlyIncreasing};
ghost use Rattle.arrayvec.specs.ArrayVec.{array_vec_len};
ghost use Rattle.posix_calls.specs.Part.{Part, Unknown, run_part};
ghost use Rattle.posix_calls.specs.declared.operation.Missing.{Missing};
ghost use Rattle.posix_calls.specs.declared.operation.Operation.{Operation};
ghost use Rattle.log_record.specs.file_graph.Graph.{is_among, touches};
ghost use Rattle.call_effects.specs.ChangeTest.{changes};
ghost use Rattle.call_effects.specs.Effects.{effects_by};
ghost use Rattle.call_effects.specs.Records.{effects_asked, growth_asked};
ghost use Rattle.call_effects.specs.Subjects.{put_in, sorted_inodes, replaced_inode, subjects_of, IsSubjectMissing};

use arrayvec::ArrayVec;
use posix_calls::{Operation, Replaced};

/// No operation changes more inodes.
pub const MAX_SUBJECTS: usize = 3;

/// The inodes that an operation changes, in rising order and each once; a node that it makes has the number `new`. They are known
/// before its record is made, and take no memory.
pub fn subjects(operation: &Operation, new: u32) -> ArrayVec<u32, MAX_SUBJECTS>
    ensures { result.items ≡ subjects_of new operation.now }
{
    match operation {
        Operation::Tell { .. } => ArrayVec::new(),
        Operation::NewDir { at } => pair(new, at.parent),
        Operation::NewFile { at, .. } => pair(new, at.parent),
        Operation::OpenFile { inode, empties, .. } => one_if(*inode, *empties),
        Operation::CloseFile { .. } => ArrayVec::new(),
        Operation::Write { inode, .. } => one_if(*inode, true),
        Operation::Resize { inode, .. } => one_if(*inode, true),
        Operation::RemoveDir { at, inode } => pair(*inode, at.parent),
        Operation::AddName { at, inode } => pair(*inode, at.parent),
        Operation::DropName { at, inode } => pair(*inode, at.parent),
        Operation::Move {
            from,
            to,
            replaced,
            ..
        } => move_subjects(from.parent, to.parent, *replaced),
        Operation::Exchange { first, second, .. } => pair(first.parent, second.parent),
    }
}

/// The inodes that an operation changes are those that its effects touch, whatever number of names the recounted file has: at most
/// three, in rising order, and none where the operation changes nothing.
pub fn subjects_are_what_the_effects_touch()
    ensures touched { (names new i : ℕ) (operation : Operation) → is_among i (subjects_of new operation) ≡ is_among i (touches (effects_by names new operation)) }
    ensures rising { (new : ℕ) (operation : Operation) → IsStrictlyIncreasing (subjects_of new operation) }
    ensures few { (new : ℕ) (operation : Operation) → length (subjects_of new operation) ≤ MAX_SUBJECTS }
    ensures unchanged { (new : ℕ) (operation : Operation) → changes operation ≡ false → subjects_of new operation ≡ [] }
{}

/// What someone who knows a part of the tree has to learn of it for an operation's record and for its growth is a node among the
/// inodes that the operation changes: whoever has a lease and a copy of each of them misses nothing.
pub fn missing_nodes_are_subjects()
    ensures effects { (p : Part) (new : ℕ) (operation : Operation) (what : Missing) → run_part p (effects_asked new operation) ≡ Unknown what → IsSubjectMissing p new operation what }
    ensures growth { (p : Part) (new : ℕ) (operation : Operation) (what : Missing) → run_part p (growth_asked operation) ≡ Unknown what → IsSubjectMissing p new operation what }
{}

fn one_if(inode: u32, is_one: bool) -> ArrayVec<u32, MAX_SUBJECTS>
    ensures { result.items ≡ (if is_one then inode ∷ [] else []) }
{
    let mut inodes = ArrayVec::new();
    if is_one {
        inodes.push(inode);
    }
    inodes
}

fn pair(inode: u32, other: u32) -> ArrayVec<u32, MAX_SUBJECTS>
    ensures { result.items ≡ sorted_inodes (inode ∷ other ∷ []) }
{
    let mut inodes = one_if(other, true);
    put_in(&mut inodes, inode);
    inodes
}

fn move_subjects(from: u32, to: u32, replaced: Replaced) -> ArrayVec<u32, MAX_SUBJECTS>
    ensures { result.items ≡ sorted_inodes (to ∷ from ∷ replaced_inode replaced) }
{
    let mut inodes = match replaced {
        Replaced::Nothing => ArrayVec::new(),
        Replaced::OldFile { inode } => one_if(inode, true),
        Replaced::OldDir { inode } => one_if(inode, true),
    };
    put_in(&mut inodes, from);
    put_in(&mut inodes, to);
    inodes
}

// An inode is put among rising ones, unless it is one of them.
fn put_in(inodes: &mut ArrayVec<u32, MAX_SUBJECTS>, inode: u32)
    requires { array_vec_len inodes.old < MAX_SUBJECTS }
    ensures items { inodes.new.items ≡ put_in inode inodes.old.items }
    ensures len { array_vec_len inodes.new ≤ array_vec_len inodes.old + 1 }
{
    if let Some(place) = place_for(inodes.as_slice(), inode) {
        inodes.insert(place, inode);
    }
}

// Where an inode has to stand among rising ones; nowhere else where it is one of them.
fn place_for(inodes: &[u32], inode: u32) -> Option<usize>
    ensures there { IfNone result (put_in inode inodes.now ≡ inodes.now) }
    ensures place { IfSome result (λ place. put_in inode inodes.now ≡ insert inodes.now place inode) }
    ensures within { IfSome result (λ place. place ≤ length inodes.now) }
{
    match inodes {
        [first, rest @ ..] if *first < inode => Some(1 + place_for(rest, inode)?),
        [first, ..] if *first == inode => None,
        _ => Some(0),
    }
}

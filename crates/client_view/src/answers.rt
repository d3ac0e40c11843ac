ghost use Rattle.std.specs.Prelude.{◌≡◌, Bool, true, Some, None, option_map, unwrap_or};
ghost use Rattle.posix_calls.specs.Answers.{entry_in};
ghost use Rattle.client_plan.specs.call_effects.Knowledge.{lists_as, part_of};
ghost use Rattle.record_validation.specs.NodeAnswers.{seen_node};
ghost use Rattle.client_view.specs.KnowledgeTables.{copy_at, knows, known_dir_in};

use crate::copies::ClientCopies;
use crate::file_reads::read;
use crate::slots::{Slot, child_is_dir, size_at, slot_at};
use client_plan::in_file_graph::{Kind, is_inode};
use posix_calls::{Bytes, Description, NamedInode, Names, ROOT, TreeAnswers};
use record_validation::NodeSummary;
use std::alloc::{AllocError, Global};

impl TreeAnswers for ClientCopies {
    ghost part = { λ c. part_of (knows c) };

    fn is_dir(&self, inode: u32) -> Option<Option<bool>> {
        known_dir(&self.copies, inode)
    }

    fn entry(&self, dir: u32, name: &[u8]) -> Option<Option<NamedInode>> {
        match slot_at(&self.copies, dir) {
            Some(Some(copy)) => Some(child_in(&self.copies, dir, copy, name)),
            Some(None) => Some(None),
            None => None,
        }
    }

    fn entry_count(&self, dir: u32) -> Option<u32> {
        match slot_at(&self.copies, dir) {
            Some(Some(copy)) => Some(copy.entry_count()),
            Some(None) => Some(0),
            None => None,
        }
    }

    fn names(&self, alloc: Global, dir: u32) -> Result<Option<Names>, AllocError> {
        match slot_at(&self.copies, dir) {
            Some(Some(copy)) => Ok(Some(copy.entry_names(alloc)?)),
            Some(None) => Ok(Some(Names::from_vec(Vec::new(alloc)))),
            None => Ok(None),
        }
    }

    fn file_size(&self, inode: u32) -> Option<u64> {
        match slot_at(&self.copies, inode) {
            Some(Some(copy)) => Some(copy.file_size()),
            Some(None) => Some(0),
            None => None,
        }
    }

    fn file_names(&self, inode: u32) -> Option<u32> {
        match slot_at(&self.copies, inode) {
            Some(Some(copy)) => Some(copy.file_names()),
            Some(None) => Some(0),
            None => None,
        }
    }

    fn read(
        &self,
        alloc: Global,
        inode: u32,
        at: u64,
        count: u64,
    ) -> Result<Option<Bytes>, AllocError> {
        let size = size_at(&self.copies, inode);
        read(alloc, size, &self.blocks, inode, at, count)
    }

    fn describe(&self, inode: u32) -> Option<Option<Description>> {
        match slot_at(&self.copies, inode) {
            Some(Some(copy)) => Some(Some(copy.describe())),
            Some(None) => Some(None),
            None => None,
        }
    }
}

// Whether an inode is a directory: the root is one, else by its copy, else by the kind that an entry tells.
fn known_dir(slots: &[Slot], inode: u32) -> Option<Option<bool>>
    ensures { result ≡ known_dir_in slots.now inode }
{
    if inode == ROOT {
        return Some(Some(true));
    }
    match slot_at(slots, inode) {
        Some(Some(copy)) => Some(Some(copy.is_dir())),
        Some(None) => Some(None),
        None => child_is_dir(slots, inode),
    }
}

// What a directory has under a name, with whether that is a directory.
fn child_in(slots: &[Slot], dir: u32, copy: &NodeSummary, name: &[u8]) -> Option<NamedInode>
    requires copied { copy_at slots.now dir ≡ Some (Some copy.now) }
    ensures inode { option_map (λ e. e.inode) result ≡ entry_in name.now (seen_node copy.now) }
    ensures kind { (e : NamedInode) (is_dir : Bool) → result ≡ Some e → e.is_dir ≡ Some is_dir → known_dir_in slots.now e.inode ≡ Some (Some is_dir) }
{
    match copy.child(name) {
        Some(child) => Some(NamedInode {
            inode: child.inode(),
            is_dir: is_child_dir(slots, dir, child.inode(), child.kind()),
        }),
        None => None,
    }
}

// Whether what a directory names is a directory. Where there is no copy of it the entry at hand tells that at once; for an entry of a file each
// copy is looked at.
fn is_child_dir(slots: &[Slot], dir: u32, inode: u32, kind: Kind) -> Option<bool>
    requires listed { lists_as inode kind (unwrap_or (copy_at slots.now dir) None) ≡ true }
    ensures { (is_dir : Bool) → result ≡ Some is_dir → known_dir_in slots.now inode ≡ Some (Some is_dir) }
{
    match (slot_at(slots, inode), kind) {
        (None, Kind::Directory) if is_inode(dir) => Some(true),
        _ => known_dir(slots, inode).flatten(),
    }
}

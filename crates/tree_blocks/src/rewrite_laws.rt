//! What is written of an inode for a change of it is the inode after the change.

ghost use Rattle.std.specs.Prelude.{◌≡◌, ℕ, None};
ghost use Rattle.graph_change.specs.Net.{Gone};
ghost use Rattle.std.specs.FinMap as fin;
ghost use Rattle.graph_change.specs.Bounds.{IsBounded};
ghost use Rattle.graph_change.specs.Change.{Change, net_of};
ghost use Rattle.graph_change.specs.Tidy.{IsTidyChange};
ghost use Rattle.tree_blocks.specs.Inode.{Inode, IsConsistent};
ghost use Rattle.tree_blocks.specs.After.{start_node, IsInodeAfter};
ghost use Rattle.tree_blocks.specs.Directory.{EntryBlocks, LeadToInodes};
ghost use Rattle.tree_blocks.specs.InodeRewrite.{IsFileRewritten, IsDirectoryRewritten};

/// An inode of which the slot and the blocks have been written for a change is that after the change: one that is free where its node goes, or where none stands to be changed; a file, which may have holes,
/// of which the blocks were written that the change puts bytes into or cuts; a directory whose blocks are those of a changed directory in memory. A file or a directory that
/// is made starts from no blocks.
pub fn rewritten_inode_is_inode_after()
    ensures gone { (number : ℕ) (c : Change) (old new : Inode) → c.base ≡ Gone → new.kind ≡ None → IsInodeAfter number (net_of c) old new }
    ensures none { (number : ℕ) (c : Change) (old new : Inode) → (start_node c.base old).kind ≡ None → new.kind ≡ None → IsInodeAfter number (net_of c) old new }
    ensures file { (number : ℕ) (c : Change) (old new : Inode) → IsTidyChange c → IsConsistent number old → IsFileRewritten c (start_node c.base old) new → IsInodeAfter number (net_of c) old new }
    ensures directory { (number : ℕ) (c : Change) (before after : EntryBlocks) (old new : Inode) → IsDirectoryRewritten number c before after (start_node c.base old) new → IsInodeAfter number (net_of c) old new }
{}

/// What `Directory::change` asks of names that come holds of the entries of a change that keeps to the limits.
pub fn bounded_entries_lead_to_inodes()
    ensures { (c : Change) → IsBounded c → LeadToInodes (fin.entries c.entries) }
{}

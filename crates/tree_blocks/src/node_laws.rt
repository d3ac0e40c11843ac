//! What the blocks of an inode say of its node.

ghost use Rattle.std.specs.Prelude.{◌≡◌, ◌<◌, ◌≤◌, ℕ, List, get_or, length, Some, None};
ghost use Rattle.std.specs.FinMap as fin;
ghost use Rattle.tree_blocks.specs.Inode.{LogicalBlocks, Inode, Entry, node_of, bytes_of_blocks, byte_of, IsZeroFrom, named_entries, AreDistinct, IsAbsent, AreAlike, IsConsistent};

/// A file of which all is zero behind its size has at each place the byte that its blocks have there. A directory in which no two entries have one name has under each name
/// what the entry of that name leads to, or nothing where there is no such entry; and it has as many names as entries.
pub fn nodes_are_read_by_place()
    ensures size { (blocks : LogicalBlocks) (size : ℕ) → length (bytes_of_blocks blocks size) ≡ size }
    ensures bytes { (blocks : LogicalBlocks) (size at : ℕ) → IsZeroFrom size blocks → get_or (bytes_of_blocks blocks size) at 0 ≡ byte_of blocks at }
    ensures found { (entry : ℕ → Entry) (n e : ℕ) → AreDistinct entry n → e < n → fin.get (named_entries entry n) (entry e).0 ≡ Some (entry e).1 }
    ensures absent { (entry : ℕ → Entry) (n : ℕ) (name : List ℕ) → IsAbsent name entry n → fin.get (named_entries entry n) name ≡ None }
    ensures count { (entry : ℕ → Entry) (n : ℕ) → AreDistinct entry n → fin.len (named_entries entry n) ≡ n }
{}

/// Inodes that read the same are one node, and both are consistent or neither.
pub fn alike_inodes_are_one_node()
    ensures node { (old new : Inode) → AreAlike old new → node_of new ≡ node_of old }
    ensures consistent { (number : ℕ) (old new : Inode) → AreAlike old new → IsConsistent number old → IsConsistent number new }
{}

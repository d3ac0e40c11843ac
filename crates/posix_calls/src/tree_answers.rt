ghost use Rattle.std.specs.Prelude.{◌≡◌, Bool, Some, None, option_map, is_some, true, IfOk, IfErr};
ghost use Rattle.posix_calls.specs.Part.{Part};
ghost use Rattle.posix_calls.specs.Answers.{entry_in, count_in, listed_in, description_of};
ghost use Rattle.posix_calls.specs.Memory.{has_names};
ghost use Rattle.posix_calls.specs.Walk.{names_seen, size_seen};
ghost use Rattle.posix_calls.specs.declared.operation.DecideError.TheVariants as why;

use crate::bytes::Bytes;
use crate::names::Names;
use crate::operation::{DecideError, Description, Missing};
use std::alloc::{AllocError, Global};

/// What a directory has under a name.
#[derive(Clone, Copy)]
pub struct NamedInode {
    pub inode: u32,
    /// Whether it is a directory, where that is at hand.
    pub is_dir: Option<bool>,
}

/// Who knows a file tree or a part of it, and answers what a call asks of it: `None` where the answer isn't known.
///
/// What is known of a node is known whole: its entries with their number and order, or its size with the number of the
/// file's names. Only whether it is a directory may be known alone. A file's bytes are known apart, range by range. What is no
/// directory has no entries, and what is no file has no bytes and no names.
pub trait TreeAnswers {
    /// What is known of the tree.
    ghost part: { Self → Part };

    /// Whether an inode is a directory; `Some(None)` where nothing stands at it.
    fn is_dir(&self, inode: u32) -> Option<Option<bool>>
        ensures { result ≡ (part self.now).is_dir inode };

    /// What a directory has under a name; `Some(None)` where it has no such name. Whether that is a directory is answered beside it
    /// where it is at hand, so that it need not be looked up.
    fn entry(&self, dir: u32, name: &[u8]) -> Option<Option<NamedInode>>
        ensures inode { option_map (option_map (λ e. e.inode)) result ≡ option_map (entry_in name.now) ((part self.now).node dir) }
        ensures kind { (e : NamedInode) (is_dir : Bool) → result ≡ Some (Some e) → e.is_dir ≡ Some is_dir → (part self.now).is_dir e.inode ≡ Some (Some is_dir) };

    /// How many entries a directory has.
    fn entry_count(&self, dir: u32) -> Option<u32>
        ensures { result ≡ option_map count_in ((part self.now).node dir) };

    /// The names in a directory, in the order of their bytes. Memory is wanted where it is known to have a name, and else not.
    fn names(&self, alloc: Global, dir: u32) -> Result<Option<Names>, AllocError>
        ensures names { IfOk result (λ names. names ≡ option_map listed_in ((part self.now).node dir)) }
        ensures memory { IfErr result (λ _. has_names ((part self.now).node dir) ≡ true) };

    /// How many bytes a file has.
    fn file_size(&self, inode: u32) -> Option<u64>
        ensures { result ≡ option_map size_seen ((part self.now).node inode) };

    /// How many names a file has.
    fn file_names(&self, inode: u32) -> Option<u32>
        ensures { result ≡ option_map names_seen ((part self.now).node inode) };

    /// Up to `count` bytes of a file from an offset on; fewer where the file ends before. Memory is wanted where they are known,
    /// and else not.
    fn read(
        &self,
        alloc: Global,
        inode: u32,
        at: u64,
        count: u64,
    ) -> Result<Option<Bytes>, AllocError>
        ensures bytes { IfOk result (λ bytes. bytes ≡ (part self.now).bytes inode at count) }
        ensures memory { IfErr result (λ _. is_some ((part self.now).bytes inode at count) ≡ true) };

    /// What there is to say of an inode; `Some(None)` where nothing stands at it.
    fn describe(&self, inode: u32) -> Option<Option<Description>>
        ensures { result ≡ option_map description_of ((part self.now).node inode) };
}

/// What was answered, or what is missing where nothing was.
pub fn known_or_missing<A: Drop>(answer: Option<A>, what: Missing) -> Result<A, DecideError>
    ensures known { IfOk result (λ x. answer ≡ Some x) }
    ensures missing { IfErr result (λ error. (error ≡ why.Missing what) × (answer ≡ None)) }
{
    match answer {
        Some(x) => Ok(x),
        None => Err(DecideError::Missing { what }),
    }
}

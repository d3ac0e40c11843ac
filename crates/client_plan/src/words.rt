ghost use Rattle.std.specs.Prelude.{◌≡◌};
ghost use Rattle.client_plan.specs.NeedOrder.{root_alone};

use posix_calls::{Bytes, Description, NamedInode, Names, ROOT, TreeAnswers};
use std::alloc::{AllocError, Global};

/// Who knows of a tree that the root is a directory, and nothing else: what it decides, the call's own words and the client's
/// descriptors decide.
pub struct WordsAlone;

impl TreeAnswers for WordsAlone {
    ghost part = { λ _. root_alone };

    fn is_dir(&self, inode: u32) -> Option<Option<bool>> {
        if inode == ROOT {
            return Some(Some(true));
        }
        None
    }

    fn entry(&self, _dir: u32, _name: &[u8]) -> Option<Option<NamedInode>> {
        None
    }

    fn entry_count(&self, _dir: u32) -> Option<u32> {
        None
    }

    fn names(&self, _alloc: Global, _dir: u32) -> Result<Option<Names>, AllocError> {
        Ok(None)
    }

    fn file_size(&self, _inode: u32) -> Option<u64> {
        None
    }

    fn file_names(&self, _inode: u32) -> Option<u32> {
        None
    }

    fn read(
        &self,
        _alloc: Global,
        _inode: u32,
        _at: u64,
        _count: u64,
    ) -> Result<Option<Bytes>, AllocError> {
        Ok(None)
    }

    fn describe(&self, _inode: u32) -> Option<Option<Description>> {
        None
    }
}

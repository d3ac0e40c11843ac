ghost use Rattle.log_record.specs.file_graph.Graph.{graph_of};
ghost use Rattle.call_effects.specs.Whole.{whole_of};

use crate::node_reads::{
    child, describe, entry_count, file_names, file_size, is_counted, is_dir, names, read,
};
use log_record::in_file_graph::PlainGraph;
use posix_calls::{Bytes, Description, NamedInode, Names, TreeAnswers};
use std::alloc::{AllocError, Global};

/// A plain graph as a file tree that is known whole. A directory of more entries than 32 bits count is not known: no call makes one.
#[derive(Clone, Copy)]
pub struct GraphAnswers<'a> {
    pub graph: &'a PlainGraph,
}

impl TreeAnswers for GraphAnswers<'_> {
    ghost part = { λ a. whole_of (graph_of a.graph.now) };

    fn is_dir(&self, inode: u32) -> Option<Option<bool>> {
        Some(is_dir(self.graph, inode))
    }

    fn entry(&self, dir: u32, name: &[u8]) -> Option<Option<NamedInode>> {
        if is_counted(self.graph, dir) {
            return Some(child(self.graph, dir, name));
        }
        None
    }

    fn entry_count(&self, dir: u32) -> Option<u32> {
        if is_counted(self.graph, dir) {
            return Some(entry_count(self.graph, dir));
        }
        None
    }

    fn names(&self, alloc: Global, dir: u32) -> Result<Option<Names>, AllocError> {
        if is_counted(self.graph, dir) {
            return Ok(Some(names(alloc, self.graph, dir)?));
        }
        Ok(None)
    }

    fn file_size(&self, inode: u32) -> Option<u64> {
        if is_counted(self.graph, inode) {
            return Some(file_size(self.graph, inode));
        }
        None
    }

    fn file_names(&self, inode: u32) -> Option<u32> {
        if is_counted(self.graph, inode) {
            return Some(file_names(self.graph, inode));
        }
        None
    }

    fn read(
        &self,
        alloc: Global,
        inode: u32,
        at: u64,
        count: u64,
    ) -> Result<Option<Bytes>, AllocError> {
        Ok(Some(read(alloc, self.graph, inode, at, count)?))
    }

    fn describe(&self, inode: u32) -> Option<Option<Description>> {
        if is_counted(self.graph, inode) {
            return Some(describe(self.graph, inode));
        }
        None
    }
}

//! What a client's calls are compared with.
use crate::run_end::RunEnd;
use plain_tree::PlainTree;
use script::RunError;
use std::alloc::Global;
use strata_threads::in_layout::CLIENTS;

/// The plain tree that is asked what a client is asked, and how the client's run ended.
#[derive(Drop)]
pub struct ClientTree {
    pub alloc: Global,
    /// The client, from 1.
    pub number: u32,
    pub tree: PlainTree,
    /// The turn at which the run ended before its last one, and why.
    pub end: Option<(u64, RunEnd)>,
    /// The line of the call that a stop or a death left without an answer.
    pub unanswered: Option<String>,
}

impl ClientTree {
    /// The tree of a client that has made no call.
    pub(crate) fn new(alloc: Global, number: u32) -> Result<ClientTree, RunError> {
        let tree = PlainTree::new(alloc)?;
        Ok(ClientTree {
            alloc,
            number,
            tree,
            end: None,
            unanswered: None,
        })
    }

    /// Whether a stop ended the client's run.
    pub(crate) fn has_stopped(&self) -> bool {
        matches!(self.end, Some((_, RunEnd::Stopped)))
    }
}

/// The trees of clients 1 to 8, each of which has made no call.
pub(crate) fn new_trees(alloc: Global) -> Result<Vec<ClientTree>, RunError> {
    let mut trees = Vec::new(alloc);
    for before in 0..CLIENTS as u32 {
        add_tree(&mut trees, alloc, before + 1)?;
    }
    Ok(trees)
}

fn add_tree(trees: &mut Vec<ClientTree>, alloc: Global, number: u32) -> Result<(), RunError> {
    trees.push(ClientTree::new(alloc, number)?)?;
    Ok(())
}

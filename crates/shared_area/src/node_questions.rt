//! The shared area is asked for its nodes.

use crate::area::Shared;
use area_reader::AreaError;
use record_validation::{NodeSummary, Nodes};
use std::alloc::Global;
use tier_device::Media;

impl<M: Media> Nodes for Shared<M> {
    type Error = AreaError;

    ghost use Rattle.area_reader.specs.Store.{disk, graph as graph_of};
    ghost use Rattle.shared_area.specs.NodeQuestions.{HasAsked, nothing_asked, asked_on};

    ghost graph = { λ a. graph_of a.geometry (disk M.Media a) };

    ghost asked = { λ first last inodes refusal. HasAsked M.Media first last refusal };

    ghost none_asked = { λ a. nothing_asked {M = M} (record { seen = M.seen; moment = M.moment; left = M.left; faults = M.faults }) a };

    ghost more_asked = { λ first next last before behind refusal answered more. asked_on {M = M} (record { seen = M.seen; moment = M.moment; left = M.left; faults = M.faults }) first next last refusal answered more };

    fn node(&mut self, _alloc: Global, inode: u32) -> Result<Option<NodeSummary>, AreaError> {
        let node = Shared::node(self, inode)?;
        Ok(node)
    }
}

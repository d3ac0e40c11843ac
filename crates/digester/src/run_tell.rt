//! The change of a run is told what swapped names lead to, by the directories of the shared area.

ghost use Rattle.std.specs.Prelude.{◌≡◌, ◌++◌, ◌∷◌, [], ℕ, List, false, IfErr, IfOk, OnOk};
ghost use Rattle.update_log.specs.file_graph.Graph.{StandAlike, graph_of, swapped_directories};
ghost use Rattle.coalescer.specs.graph_change.Swaps.{told_change};
ghost use Rattle.coalescer.specs.graph_change.View.{changes_of};
ghost use Rattle.coalescer.specs.RunChange.{swapped_of};
ghost use Rattle.shared_area.specs.area_reader.Store.{disk, graph};
ghost use Rattle.shared_area.specs.area_reader.Looks.{Looks};
ghost use Rattle.shared_area.specs.Parts.{IsNoDamage};
ghost use Rattle.digester.specs.Directories.{HasDirectories};

use coalescer::RunChange;
use coalescer::in_file_graph::PlainGraph;
use shared_area::Shared;
use shared_area::in_area_reader::AreaError;
use std::alloc::Global;
use tier_device::Media;
use update_log::in_file_graph::Effect;

/// Enters in the change of a run what its swapped names lead to in the shared area after the run. The area is asked for the directories
/// that Swaps name. Where no Swap is in the run, nothing is asked, and the run stays as it is.
///
/// `Memory` where there was none, and `DeviceFault` where a device fails: nothing is said of the change of a run with a Swap then.
pub fn tell_run<M: Media>(
    alloc: Global,
    area: &mut Shared<M>,
    run: &mut RunChange,
) -> Result<(), AreaError>
    requires going { area.old.failed ≡ false }
    ensures change { OnOk result (changes_of run.new.change ≡ told_change (graph area.old.geometry (disk M.Media area.old)) (swapped_of run.old)) }
    ensures names { run.new.names ≡ run.old.names }
    ensures no_swap { run.old.names ≡ [] → run.new ≡ run.old }
    ensures only { IfErr result IsNoDamage }
    ensures looks { Looks M.Media area.old area.new result }
{
    if run.names.is_empty() {
        return Ok(());
    }
    let mut directories = read_directories(alloc, area, run.names.as_slice())?;
    run.tell(alloc, &mut directories)?;
    Ok(())
}

// The directories of the shared area that Swaps among effects name.
fn read_directories<M: Media>(
    alloc: Global,
    area: &mut Shared<M>,
    effects: &[Effect],
) -> Result<PlainGraph, AreaError>
    requires going { area.old.failed ≡ false }
    ensures alike { IfOk result (λ read. StandAlike (swapped_directories effects.now) (graph_of read) (graph area.old.geometry (disk M.Media area.old))) }
    ensures only { IfErr result IsNoDamage }
    ensures looks { Looks M.Media area.old area.new result }
{
    let mut read = PlainGraph::empty(alloc);
    for effect in effects {
        read_both(area, &mut read, effect)?;
    }
    Ok(read)
}

// Reads the two directories of a Swap; of another effect nothing.
fn read_both<M: Media>(
    area: &mut Shared<M>,
    read: &mut PlainGraph,
    effect: &Effect,
) -> Result<(), AreaError>
    requires going { area.old.failed ≡ false }
    ensures has { OnOk result ((is : List ℕ) → HasDirectories (graph area.old.geometry (disk M.Media area.old)) is (graph_of read.old) → HasDirectories (graph area.old.geometry (disk M.Media area.old)) (is ++ swapped_directories (effect.now ∷ [])) (graph_of read.new)) }
    ensures only { IfErr result IsNoDamage }
    ensures looks { Looks M.Media area.old area.new result }
{
    match effect {
        Effect::Swap {
            directory,
            other,
            ..
        } => {
            read_directory(area, read, *directory)?;
            read_directory(area, read, *other)
        }
        _ => Ok(()),
    }
}

// Reads the directory at an inode, where it was not yet read.
fn read_directory<M: Media>(
    area: &mut Shared<M>,
    read: &mut PlainGraph,
    inode: u32,
) -> Result<(), AreaError>
    requires going { area.old.failed ≡ false }
    ensures has { OnOk result ((is : List ℕ) → HasDirectories (graph area.old.geometry (disk M.Media area.old)) is (graph_of read.old) → HasDirectories (graph area.old.geometry (disk M.Media area.old)) (is ++ inode ∷ []) (graph_of read.new)) }
    ensures only { IfErr result IsNoDamage }
    ensures looks { Looks M.Media area.old area.new result }
{
    if read.names(inode).is_some() {
        return Ok(());
    }
    match area.directory(inode)? {
        Some(entries) => {
            read.put_directory(inode, 0, entries)?;
            Ok(())
        }
        None => Ok(()),
    }
}

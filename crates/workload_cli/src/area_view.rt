// What a world answers of its shared area.
ghost use Rattle.std.specs.Prelude.{◌≡◌, ◌⊎◌, Ok, Err, IfErr, IfOk, OnOk, false};
ghost use Rattle.call_driver.specs.call_effects.NodeView.{view_at};
ghost use Rattle.call_driver.specs.kernel_fs.KernelAnswers.{OnRefusal};
ghost use Rattle.call_driver.specs.shared_area.Parts.{IsNoDamage};
ghost use Rattle.call_driver.specs.area_reader.Store.{graph, disk};
ghost use Rattle.posix_calls.specs.Path.{path_names};
ghost use Rattle.posix_calls.specs.Resolve as resolve;
ghost use Rattle.posix_calls.specs.declared.errno.Errno.{Errno};
ghost use Rattle.script.specs.LineValues.{path_of};
ghost use Rattle.workload_cli.specs.OfSystem.{HasLooked, IsUnreadAnswer, tree_in};
ghost use Rattle.workload_cli.specs.Paths.{child_in, file_along, unless_directory};
ghost use Rattle.workload_cli.specs.AnswerText.{IsNoFile, IsUnread, failure_answer};

use crate::answer::{Answer, failure_answer};
use crate::system_queries::Running;
use call_driver::in_area_reader::AreaError;
use call_driver::in_event_steps::Refusal;
use call_driver::in_interleavings::World;
use call_driver::in_kernel_fs::{Figures, KernelError};
use call_driver::in_record_validation::NodeSummary;
use posix_calls::{Errno, Path, ROOT};
use script::PathText;
use std::alloc::Global;
use tier_device::{Media, Tier};

impl<M: Media + Drop> Running for World<M> {
    ghost use Rattle.workload_cli.specs.OfSystem.{HasLooked, LiesIn, figures_of, tree_in};

    ghost area_failed = { λ w. w.system.kernel.area.failed };

    ghost tree = { λ w. tree_in M.Media w.system.kernel };

    ghost tier_in = { λ w. LiesIn M.Media w.system.kernel };

    ghost figures_now = { λ w. figures_of M.Media w.system.kernel };

    ghost only_reads = { λ v w. HasLooked M.Media v.system w.system };

    fn file_at(&mut self, alloc: Global, path: &PathText<'_>) -> Result<u32, Answer> {
        match read_path(alloc, path) {
            Ok(path) => file_along(self, &path),
            Err(errno) => Err(failure_answer(errno)),
        }
    }

    fn tier_at(
        &mut self,
        alloc: Global,
        path: &PathText<'_>,
        block: u64,
    ) -> Result<Option<Tier>, Answer> {
        let inode = self.file_at(alloc, path)?;
        match World::tier_of(self, inode, block) {
            Ok(tier) => Ok(tier),
            Err(error) => Err(unread_answer(error)),
        }
    }

    fn figures(&self) -> Result<Figures, Answer> {
        match self.system().kernel().book() {
            Ok(figures) => Ok(figures),
            Err(_) => Err(Answer::Refused(Refusal::KernelFailed)),
        }
    }
}

// The names that a path spells.
fn read_path(alloc: Global, path: &PathText<'_>) -> Result<Path, Errno>
    ensures names { IfOk result (λ names. path_names (path_of path.now) ≡ Ok names) }
    ensures refused { IfErr result (λ e. (e ≡ Errno.NoMemory) ⊎ (path_names (path_of path.now) ≡ Err e)) }
{
    match path.to_bytes(alloc) {
        Ok(bytes) => Path::read(alloc, bytes.as_slice()),
        Err(_) => Err(Errno::NoMemory),
    }
}

// The file that the names of a path lead to from the root.
fn file_along<M: Media + Drop>(system: &mut World<M>, path: &Path) -> Result<u32, Answer>
    ensures file { IfOk result (λ i. file_along (tree_in M.Media system.old.system.kernel) path.now ≡ Ok i) }
    ensures none { IfErr result (IsNoFile (file_along (tree_in M.Media system.old.system.kernel) path.now) system.old.system.kernel.area.failed system.new.system.kernel.area.failed) }
    ensures going { OnOk result ((system.old.system.kernel.area.failed ≡ false) × (system.new.system.kernel.area.failed ≡ false)) }
    ensures looks { HasLooked M.Media system.old.system system.new.system }
{
    let inode = walk(system, path)?;
    file_itself(system, inode)
}

// The inode that the names lead to.
fn walk<M: Media + Drop>(system: &mut World<M>, path: &Path) -> Result<u32, Answer>
    ensures inode { IfOk result (λ i. resolve.resolve (tree_in M.Media system.old.system.kernel) path.now ≡ Ok i) }
    ensures none { IfErr result (IsNoFile (resolve.resolve (tree_in M.Media system.old.system.kernel) path.now) system.old.system.kernel.area.failed system.new.system.kernel.area.failed) }
    ensures going { OnOk result (system.new.system.kernel.area.failed ≡ system.old.system.kernel.area.failed) }
    ensures looks { HasLooked M.Media system.old.system system.new.system }
{
    let mut inode = ROOT;
    for name in path.names() {
        inode = child(system, inode, name.as_slice())?;
    }
    Ok(inode)
}

// An inode, unless a directory stands there.
fn file_itself<M: Media + Drop>(system: &mut World<M>, inode: u32) -> Result<u32, Answer>
    ensures file { IfOk result (λ i. unless_directory (tree_in M.Media system.old.system.kernel inode) inode ≡ Ok i) }
    ensures none { IfErr result (IsNoFile (unless_directory (tree_in M.Media system.old.system.kernel inode) inode) system.old.system.kernel.area.failed system.new.system.kernel.area.failed) }
    ensures going { OnOk result ((system.old.system.kernel.area.failed ≡ false) × (system.new.system.kernel.area.failed ≡ false)) }
    ensures looks { HasLooked M.Media system.old.system system.new.system }
{
    match node_at(system, inode)? {
        Some(node) if node.is_dir() => Err(failure_answer(Errno::IsDirectory)),
        _ => Ok(inode),
    }
}

// What a directory has under a name.
fn child<M: Media + Drop>(system: &mut World<M>, inode: u32, name: &[u8]) -> Result<u32, Answer>
    ensures child { IfOk result (λ i. resolve.child (tree_in M.Media system.old.system.kernel inode) name.now ≡ Ok i) }
    ensures none { IfErr result (IsNoFile (resolve.child (tree_in M.Media system.old.system.kernel inode) name.now) system.old.system.kernel.area.failed system.new.system.kernel.area.failed) }
    ensures going { OnOk result ((system.old.system.kernel.area.failed ≡ false) × (system.new.system.kernel.area.failed ≡ false)) }
    ensures looks { HasLooked M.Media system.old.system system.new.system }
{
    match node_at(system, inode)? {
        Some(node) => child_of(&node, name),
        None => Err(failure_answer(Errno::NoEntry)),
    }
}

fn child_of(node: &NodeSummary, name: &[u8]) -> Result<u32, Answer>
    ensures child { IfOk result (λ i. child_in node.now name.now ≡ Ok i) }
    ensures none { IfErr result (λ answer. (e : Errno) × (answer ≡ failure_answer e) × (child_in node.now name.now ≡ Err e)) }
{
    if !node.is_dir() {
        return Err(failure_answer(Errno::NotDirectory));
    }
    match node.child(name) {
        Some(child) => Ok(child.inode()),
        None => Err(failure_answer(Errno::NoEntry)),
    }
}

// What stands at an inode.
fn node_at<M: Media + Drop>(
    system: &mut World<M>,
    inode: u32,
) -> Result<Option<NodeSummary>, Answer>
    ensures node { IfOk result (λ node. node ≡ view_at (graph system.old.system.kernel.area.geometry (disk M.Media system.old.system.kernel.area)) inode) }
    ensures going { OnOk result ((system.old.system.kernel.area.failed ≡ false) × (system.new.system.kernel.area.failed ≡ false)) }
    ensures unread { IfErr result (IsUnread system.old.system.kernel.area.failed system.new.system.kernel.area.failed) }
    ensures looks { HasLooked M.Media system.old.system system.new.system }
{
    match system.look(inode) {
        Ok(found) => Ok(found.node),
        Err(error) => Err(unread_answer(error)),
    }
}

// The answer if the shared area could not be read; no damage is found on media that are opened.
fn unread_answer(error: KernelError<AreaError>) -> Answer
    requires { OnRefusal error IsNoDamage }
    ensures { IsUnreadAnswer error result }
{
    match error {
        KernelError::Failed => Answer::Refused(Refusal::KernelFailed),
        KernelError::Refused(AreaError::DeviceFault) => Answer::Refused(Refusal::DeviceFault),
        KernelError::Refused(AreaError::Memory) => Answer::Refused(Refusal::Memory),
        KernelError::Refused(
            AreaError::Damaged { .. } | AreaError::NoBlock | AreaError::NotMapped,
        ) => unreachable!(),
    }
}

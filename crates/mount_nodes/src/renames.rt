// Names move.
ghost use Rattle.std.specs.Prelude.{◌≡◌, ◌⊎◌, false, IfErr, IfSome, OnErr};
ghost use Rattle.posix_calls.specs.Name.{is_name};
ghost use Rattle.posix_calls.specs.declared.call.Call.TheVariants as call;
ghost use Rattle.mount_nodes.specs.Calls.{Answers, Asks, IsUnasked, MayAsk, done_of};
ghost use Rattle.mount_nodes.specs.Refusals.{IsMemory};
ghost use Rattle.mount_nodes.specs.Renames.{IsUnmoved, Moves, Renames, absent_of};
ghost use Rattle.mount_nodes.specs.Times.{Runs};
ghost use Rattle.mount_nodes.specs.Upkeep.{Behind, IsLost};

use crate::depth::check_depth;
use crate::lookups::{check_done, read_name};
use crate::paths::path_below;
use crate::tables::Tables;
use crate::tree::Tree;
use fuse_wire::Refusal;
use posix_calls::{Bytes, Call, Errno, Name, Reply};
use std::alloc::Global;

/// The flag of RENAME2 by which nothing may have the new name.
const NO_REPLACE: u32 = 1;

/// The flag of RENAME2 by which two names change what they lead to.
const EXCHANGE: u32 = 2;

/// A name of a directory's node.
#[derive(Clone, Copy)]
pub struct Place<'a> {
    pub folder: u64,
    pub name: &'a [u8],
}

impl Tables {
    /// Moves a name, in place of what has the new one. With the flag `NO_REPLACE` what has it refuses the call; with `EXCHANGE` the two names
    /// change what they lead to; other flags are `Invalid`. `NameTooLong` where a path below a directory that moves would pass 1,024 bytes.
    #[tactic(auto, using(crate::proofs::TimeLemmas::runs_same))]
    pub fn rename<T: Tree>(
        &mut self,
        tree: &mut T,
        old: Place<'_>,
        new: Place<'_>,
        flags: u32,
    ) -> Result<(), Refusal>
        ensures renames { Renames T.Tree self.old.nodes (old.entry.folder, old.entry.name.now) (new.entry.folder, new.entry.name.now) flags result tree.old tree.new }
        ensures unexchanged { flags ≡ 2 → OnErr result (self.new ≡ self.old) }
        ensures times { Runs self.old.times self.new.times }
    {
        let from = path_below(self.alloc, &self.nodes, old.folder, old.name)?;
        let to = path_below(self.alloc, &self.nodes, new.folder, new.name)?;
        match flags {
            0 => self.move_path(tree, (old, new), from, to),
            NO_REPLACE => self.move_beside(tree, (old, new), from, to),
            EXCHANGE => self.exchange(tree, (old, new), from, to),
            _ => Err(Refusal::Posix(Errno::Invalid)),
        }
    }

    // Moves what has a name to a path where nothing is.
    #[tactic(auto, using(crate::proofs::TimeLemmas::runs_same))]
    fn move_beside<T: Tree>(
        &mut self,
        tree: &mut T,
        places: (Place<'_>, Place<'_>),
        from: Vec<u8>,
        to: Vec<u8>,
    ) -> Result<(), Refusal>
        ensures asked { MayAsk T.Tree (call.Stat to.items) absent_of (λ _. Moves T.Tree self.old.nodes (places.entry.0.folder, places.entry.0.name.now) (places.entry.1.folder, places.entry.1.name.now) from.items to.items) result tree.old tree.new }
        ensures times { Runs self.old.times self.new.times }
    {
        check_absent(self.alloc, tree, &to)?;
        self.move_path(tree, places, from, to)
    }

    // Moves what has a name, from a path to another.
    #[tactic(auto, using(crate::proofs::TimeLemmas::runs_same))]
    fn move_path<T: Tree>(
        &mut self,
        tree: &mut T,
        places: (Place<'_>, Place<'_>),
        from: Vec<u8>,
        to: Vec<u8>,
    ) -> Result<(), Refusal>
        ensures asked { Moves T.Tree self.old.nodes (places.entry.0.folder, places.entry.0.name.now) (places.entry.1.folder, places.entry.1.name.now) from.items to.items result tree.old tree.new }
        ensures times { Runs self.old.times self.new.times }
    {
        check_depth(self.alloc, tree, &from, to.len())?;
        let from = Bytes::from_vec(from);
        let to = Bytes::from_vec(to);
        self.move_name(tree, places.0, places.1, (from, to))
    }

    #[tactic(auto, using(crate::proofs::TimeLemmas::runs_same))]
    fn move_name<T: Tree>(
        &mut self,
        tree: &mut T,
        old: Place<'_>,
        new: Place<'_>,
        paths: (Bytes, Bytes),
    ) -> Result<(), Refusal>
        ensures asked { Behind T.Tree (IsUnmoved self.old.nodes (old.entry.folder, old.entry.name.now) (new.entry.folder, new.entry.name.now)) (MayAsk T.Tree (call.Rename paths.0 paths.1) done_of Answers) result tree.old tree.new }
        ensures times { Runs self.old.times self.new.times }
    {
        let replaced = self.nodes.child(new.folder, new.name);
        match self.nodes.child(old.folder, old.name) {
            Some(moved) => self.move_child(tree, moved, (old, new), replaced, paths),
            None => Err(Refusal::StaleNode),
        }
    }

    // Moves a name of a known node, over what has the new one, which may be the same node.
    #[tactic(auto, using(crate::proofs::TimeLemmas::runs_same))]
    fn move_child<T: Tree>(
        &mut self,
        tree: &mut T,
        moved: u64,
        places: (Place<'_>, Place<'_>),
        replaced: Option<u64>,
        paths: (Bytes, Bytes),
    ) -> Result<(), Refusal>
        ensures asked { Behind T.Tree ((is_name places.entry.1.name.now ≡ false) ⊎ IfSome replaced (λ id. IsLost self.old.nodes id)) (MayAsk T.Tree (call.Rename paths.0 paths.1) done_of Answers) result tree.old tree.new }
        ensures times { Runs self.old.times self.new.times }
    {
        if replaced == Some(moved) {
            return rename_paths(tree, paths);
        }
        self.hold_open(tree, replaced)?;
        self.move_known(tree, moved, places, replaced, paths)
    }

    // Moves a name of a known node. It is entered before the call, so that no memory is wanted behind it.
    #[tactic(auto, using(crate::proofs::TimeLemmas::runs_same))]
    fn move_known<T: Tree>(
        &mut self,
        tree: &mut T,
        moved: u64,
        places: (Place<'_>, Place<'_>),
        replaced: Option<u64>,
        paths: (Bytes, Bytes),
    ) -> Result<(), Refusal>
        ensures asked { IsUnasked (is_name places.entry.1.name.now ≡ false) result tree.old tree.new ⊎ Asks T.Tree (call.Rename paths.0 paths.1) done_of Answers result tree.old tree.new }
        ensures times { Runs self.old.times self.new.times }
    {
        let name = self.enter_moved(moved, places.1)?;
        let end = rename_paths(tree, paths);
        self.settle_move(moved, places, replaced, name, end.is_ok());
        end
    }

    // Enters the new name of a node, and answers it.
    fn enter_moved(&mut self, moved: u64, new: Place<'_>) -> Result<Name, Refusal>
        ensures asked { IfErr result (λ e. IsMemory e ⊎ (is_name new.entry.name.now ≡ false)) }
        ensures times { self.new.times ≡ self.old.times }
    {
        let name = read_name(self.alloc, new.name)?;
        self.nodes.enter(new.folder, &name, moved)?;
        Ok(name)
    }

    // Notes a move that was done, or takes back what was entered for one that was not.
    #[tactic(auto, using(crate::proofs::TimeLemmas::runs_same))]
    fn settle_move(
        &mut self,
        moved: u64,
        places: (Place<'_>, Place<'_>),
        replaced: Option<u64>,
        name: Name,
        done: bool,
    )
        ensures { Runs self.old.times self.new.times }
    {
        if done {
            self.end_move(moved, places.0, places.1, replaced);
        } else {
            self.undo_move(moved, places.1, name, replaced);
        }
    }

    fn end_move(&mut self, moved: u64, old: Place<'_>, new: Place<'_>, replaced: Option<u64>)
        ensures { Runs self.old.times self.new.times }
    {
        let _ = self.nodes.leave(old.folder, old.name);
        self.nodes.forget_known(new.folder, new.name, replaced);
        self.lose_known(replaced);
        self.times.write(old.folder);
        self.times.write(new.folder);
        self.times.give_name(moved);
    }

    // What had the new name has it still. There is room for it, since the name of what was to move stands there.
    fn undo_move(&mut self, moved: u64, new: Place<'_>, name: Name, replaced: Option<u64>)
        ensures { self.new.times ≡ self.old.times }
    {
        self.nodes.forget_name(new.folder, new.name, moved);
        match replaced {
            Some(id) => {
                let _ = self.nodes.put_child(new.folder, name, id);
            }
            None => self.nodes.remove_child(new.folder, new.name),
        }
    }
}

// Moves what is at a path to another.
fn rename_paths<T: Tree>(tree: &mut T, paths: (Bytes, Bytes)) -> Result<(), Refusal>
    ensures { Asks T.Tree (call.Rename paths.0 paths.1) done_of Answers result tree.old tree.new }
{
    let (old, new) = paths;
    check_done(tree.call(Call::Rename { old, new }))
}

// `Exists` where something is at a path.
fn check_absent<T: Tree>(alloc: Global, tree: &mut T, path: &[u8]) -> Result<(), Refusal>
    ensures { MayAsk T.Tree (call.Stat path.now) absent_of Answers result tree.old tree.new }
{
    let path = Bytes::copy_of(alloc, path)?;
    absent_of(tree.call(Call::Stat { path }))
}

fn absent_of(reply: Reply) -> Result<(), Refusal>
    ensures { result ≡ absent_of reply }
{
    match reply {
        Reply::Failed {
            errno: Errno::NoEntry,
        } => Ok(()),
        Reply::Failed { errno } => Err(Refusal::Posix(errno)),
        Reply::File { .. } | Reply::Dir { .. } => Err(Refusal::Posix(Errno::Exists)),
        _ => Err(Refusal::Posix(Errno::IoError)),
    }
}

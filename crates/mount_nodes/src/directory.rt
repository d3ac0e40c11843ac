// The names in a directory.
ghost use Rattle.std.specs.Prelude.{◌≡◌};
ghost use Rattle.posix_calls.specs.declared.call.Call.TheVariants as call;
ghost use Rattle.mount_nodes.specs.Calls.{Answers, MayAsk, listed_of};

use crate::tree::Tree;
use fuse_wire::Refusal;
use posix_calls::{Bytes, Call, Errno, Names, Reply};
use std::alloc::Global;

/// The names in the directory at a path.
pub fn list<T: Tree>(alloc: Global, tree: &mut T, path: &[u8]) -> Result<Names, Refusal>
    ensures { MayAsk T.Tree (call.List path.now) listed_of Answers result tree.old tree.new }
{
    let path = Bytes::copy_of(alloc, path)?;
    names_of(tree.call(Call::List { path }))
}

fn names_of(reply: Reply) -> Result<Names, Refusal>
    ensures { result ≡ listed_of reply }
{
    match reply {
        Reply::Listed { names } => Ok(names),
        Reply::Failed { errno } => Err(Refusal::Posix(errno)),
        _ => Err(Refusal::Posix(Errno::IoError)),
    }
}

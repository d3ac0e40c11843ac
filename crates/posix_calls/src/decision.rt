ghost use Rattle.std.specs.Prelude.{◌≡◌, Err, IfOk, true};
ghost use Rattle.posix_calls.specs.Answers.{IsAnswer};
ghost use Rattle.posix_calls.specs.Decide.{decide};
ghost use Rattle.posix_calls.specs.Memory.{takes_memory};
ghost use Rattle.posix_calls.specs.Exact.{IsInRange};
ghost use Rattle.posix_calls.specs.Own.{own_of};
ghost use Rattle.posix_calls.specs.declared.operation.DecideError.TheVariants.{Memory};

use crate::call::Call;
use crate::descriptor_calls::{close, open, pread, pwrite};
use crate::dir_calls::{mkdir, rmdir};
use crate::file_calls::{truncate, unlink};
use crate::operation::{DecideError, Operation};
use crate::own::OwnDescriptors;
use crate::tell_calls::{list, stat};
use crate::tree_answers::TreeAnswers;
use crate::two_path_calls::{exchange, link, rename};
use std::alloc::Global;

/// Decides a call of a client with these descriptors: the operation, or else the first error of the call in the order of
/// its profile. Nothing is changed; who decides carries the operation out.
///
/// The tree may be known in part. What the call needs is asked for in the order of its errors, and the first thing that has to be
/// known beside is answered by `Missing`; once it is known, the same call may be decided again. Bytes of a file are asked for by
/// `pread` alone (`bytes_are_for_pread_alone`), and only those that it gives. Where an answer comes, it is that
/// of every tree of which this is a part. Memory is taken for the names of the paths and for what the operation carries; where it is
/// taken `Memory` may stand in place of any answer.
pub fn decide<T: TreeAnswers>(
    alloc: Global,
    tree: &T,
    own: &OwnDescriptors,
    call: &Call,
) -> Result<Operation, DecideError>
    ensures answer { IsAnswer (T.part tree.now) (decide (own_of own.now) call.now) result }
    ensures memory { result ≡ Err Memory → takes_memory (T.part tree.now) (own_of own.now) call.now ≡ true }
    ensures range { IfOk result (λ operation. IsInRange operation) }
{
    match call {
        Call::Open { path, flags } => open(alloc, tree, own, path.as_slice(), *flags),
        Call::Close { descriptor } => close(own, *descriptor),
        Call::Pread {
            descriptor,
            at,
            count,
        } => pread(alloc, tree, own, *descriptor, *at, *count),
        Call::Pwrite {
            descriptor,
            at,
            bytes,
        } => pwrite(own, *descriptor, *at, bytes),
        Call::Truncate { path, len } => truncate(alloc, tree, path.as_slice(), *len),
        Call::Mkdir { path } => mkdir(alloc, tree, path.as_slice()),
        Call::Rmdir { path } => rmdir(alloc, tree, path.as_slice()),
        Call::Link { old, new } => link(alloc, tree, old.as_slice(), new.as_slice()),
        Call::Unlink { path } => unlink(alloc, tree, path.as_slice()),
        Call::Rename { old, new } => rename(alloc, tree, old.as_slice(), new.as_slice()),
        Call::Exchange { first, second } => {
            exchange(alloc, tree, first.as_slice(), second.as_slice())
        }
        Call::List { path } => list(alloc, tree, path.as_slice()),
        Call::Stat { path } => stat(alloc, tree, path.as_slice()),
    }
}

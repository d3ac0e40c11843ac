//! What a client fetches of the shared graph, with the mark up to which its records were digested then.

ghost use Rattle.std.specs.Prelude.{◌≡◌, ◌-◌, ◌*◌, ℕ, min, length, true, false, OnErr, IfOk, IfErr};
ghost use Rattle.posix_calls.specs.Operations.{is_client};
ghost use Rattle.posix_calls.specs.declared.limits.TheConstants.{UNIT_BYTES};
ghost use Rattle.world_invariant.specs.call_effects.NodeView.{view_at};
ghost use Rattle.migrator.specs.area_reader.Store.{disk, graph};
ghost use Rattle.migrator.specs.area_reader.Looks.{Looks};
ghost use Rattle.migrator.specs.area_reader.Map.{WantsMemory};
ghost use Rattle.migrator.specs.area_reader.declared.error.AreaError.TheVariants.{Memory};
ghost use Rattle.migrator.specs.shared_area.Parts.{IsNoDamage};
ghost use Rattle.migrator.specs.shared_area.FileReads.{bytes_of_inode, IsReadFrom};
ghost use Rattle.kernel_fs.specs.MachineState.{IsMarkIn};

use digester::mark_of;
use migrator::in_area_reader::AreaError;
use migrator::in_layout::Mark;
use migrator::in_record_validation::NodeSummary;
use migrator::in_shared_area::Shared;
use posix_calls::UNIT_BYTES;
use tier_device::Media;

/// What stands at an inode of the shared graph, as a client fetches it.
#[derive(Drop)]
pub struct Fetched {
    /// A file with its size and how many names it has, or a directory with its entries by name; `None` where nothing stands.
    pub node: Option<NodeSummary>,
    /// The client's mark when it was read: what the client logged behind it is not in the node.
    pub mark: Mark,
}

/// How many bytes of a file a client fetched.
#[derive(Clone, Copy, PartialEq, Eq)]
pub struct FetchedBytes {
    /// The bytes at the front of the buffer that were read.
    pub count: usize,
    /// The client's mark when they were read: what the client logged behind it is not in the bytes.
    pub mark: Mark,
}

/// How far a client's records are digested.
pub fn mark_in<M: Media>(area: &Shared<M>, client: u32) -> Mark
    requires client { is_client client ≡ true }
    requires going { area.now.failed ≡ false }
    ensures { IsMarkIn (disk M.Media area.now) client result }
{
    mark_of(&area.marks(), client)
}

/// What stands at an inode, with the mark of a client.
pub fn fetch_node<M: Media>(
    area: &mut Shared<M>,
    client: u32,
    inode: u32,
) -> Result<Fetched, AreaError>
    requires client { is_client client ≡ true }
    requires going { area.old.failed ≡ false }
    ensures mark { IfOk result (λ x. IsMarkIn (disk M.Media area.old) client x.mark) }
    ensures node { IfOk result (λ x. x.node ≡ view_at (graph area.old.geometry (disk M.Media area.old)) inode) }
    ensures only { IfErr result IsNoDamage }
    ensures memory { IfErr result (λ r. r ≡ Memory → WantsMemory area.old.geometry (disk M.Media area.old) inode) }
    ensures looks { Looks M.Media area.old area.new result }
{
    let mark = mark_in(area, client);
    let node = area.node(inode)?;
    Ok(Fetched { node, mark })
}

/// Bytes of a file from a logical block on, with the mark of a client.
pub fn fetch_bytes<M: Media>(
    area: &mut Shared<M>,
    client: u32,
    inode: u32,
    first: u32,
    out: &mut [u8],
) -> Result<FetchedBytes, AreaError>
    requires client { is_client client ≡ true }
    requires going { area.old.failed ≡ false }
    ensures mark { IfOk result (λ x. IsMarkIn (disk M.Media area.old) client x.mark) }
    ensures count { IfOk result (λ x. x.count ≡ min (length out.old) (length (bytes_of_inode (graph area.old.geometry (disk M.Media area.old)) inode) - UNIT_BYTES * first)) }
    ensures bytes { IfOk result (λ x. IsReadFrom (bytes_of_inode (graph area.old.geometry (disk M.Media area.old)) inode) (UNIT_BYTES * first) x.count out.old out.new) }
    ensures refused { OnErr result ((n : ℕ) × IsReadFrom (bytes_of_inode (graph area.old.geometry (disk M.Media area.old)) inode) (UNIT_BYTES * first) n out.old out.new) }
    ensures only { IfErr result IsNoDamage }
    ensures memory { IfErr result (λ r. r ≡ Memory → WantsMemory area.old.geometry (disk M.Media area.old) inode) }
    ensures looks { Looks M.Media area.old area.new result }
{
    let mark = mark_in(area, client);
    let count = area.read_range(inode, UNIT_BYTES as u64 * first as u64, out)?;
    Ok(FetchedBytes { count, mark })
}

// What is known of the shared media once they are opened.
ghost use Rattle.std.specs.Prelude.{◌≡◌, ◌↔◌, ℕ, length, Some, IsSome, false, OnOk, IfOk, IfErr};
ghost use Rattle.tier_device.specs.declared.media.Tier.{Tier};
ghost use Rattle.batch_journal.specs.file_graph.Units.{charge};
ghost use Rattle.batch_journal.specs.layout.Places.{tier_blocks};
ghost use Rattle.area_reader.specs.Store.{disk, graph, marks as marks_of};
ghost use Rattle.area_reader.specs.Format.{Use, used_block as used_by, IsOpenable};
ghost use Rattle.area_reader.specs.BlockMarks.{marks_in, IsMarked};
ghost use Rattle.area_reader.specs.Damage.{OnDamage, IsDamaged};
ghost use Rattle.area_reader.specs.Looks.{Looks};
ghost use Rattle.area_reader.specs.declared.error.AreaError.TheVariants.{Memory};

use crate::area::read_area;
use crate::error::AreaError;
use crate::marks::read_marks;
use crate::used_blocks::UsedBlocks;
use batch_journal::Journal;
use batch_journal::in_layout::{Marks, SUPER_BLOCK, What};
use std::alloc::Global;
use tier_device::Media;

/// What opened media tell beside their nodes: the blocks in use, the marks of the clients with the number of digests, and the units that the graph costs.
#[derive(Drop)]
pub struct OpenArea {
    pub used: UsedBlocks,
    pub marks: Marks,
    pub charge: u64,
}

/// Reads the whole area behind an open journal, and writes nothing. It answers where the media spell a graph that keeps the units. Where they do not, `Damaged` names a
/// structure that shows it and its block, the superblock where the graph costs more units than that tells. Marks that are none take no memory; the marks of the blocks
/// always do.
pub fn open_area<M: Media>(alloc: Global, journal: &mut Journal<M>) -> Result<OpenArea, AreaError>
    ensures openable { OnOk result (IsOpenable journal.old.geometry (disk M.Media journal.old)) }
    ensures marks { IfOk result (λ x. marks_of (disk M.Media journal.old) ≡ Some x.marks) }
    ensures room { IfOk result (λ x. (t : Tier) → length (marks_in x.used t) ≡ tier_blocks journal.old.geometry t) }
    ensures used { IfOk result (λ x. (t : Tier) (k : ℕ) → IsMarked x.used t k ↔ ((u : Use) × (used_by journal.old.geometry (disk M.Media journal.old) u ≡ Some (t, k)))) }
    ensures charge { IfOk result (λ x. x.charge ≡ charge (graph journal.old.geometry (disk M.Media journal.old))) }
    ensures damaged { IfErr result (λ e. OnDamage e (IsDamaged journal.old.geometry (disk M.Media journal.old))) }
    ensures unopenable { IfErr result (λ e. OnDamage e (λ _ _. IsOpenable journal.old.geometry (disk M.Media journal.old) → ⊥)) }
    ensures memory { IfErr result (λ e. e ≡ Memory → IsSome (marks_of (disk M.Media journal.old))) }
    ensures looks { Looks M.Media journal.old journal.new result }
{
    let marks = read_marks(journal)?;
    read_inodes(alloc, journal, marks)
}

// The same behind these marks.
fn read_inodes<M: Media>(
    alloc: Global,
    journal: &mut Journal<M>,
    marks: Marks,
) -> Result<OpenArea, AreaError>
    requires going { journal.old.failed ≡ false }
    requires marks { marks_of (disk M.Media journal.old) ≡ Some marks }
    ensures openable { OnOk result (IsOpenable journal.old.geometry (disk M.Media journal.old)) }
    ensures marks { IfOk result (λ x. x.marks ≡ marks) }
    ensures room { IfOk result (λ x. (t : Tier) → length (marks_in x.used t) ≡ tier_blocks journal.old.geometry t) }
    ensures used { IfOk result (λ x. (t : Tier) (k : ℕ) → IsMarked x.used t k ↔ ((u : Use) × (used_by journal.old.geometry (disk M.Media journal.old) u ≡ Some (t, k)))) }
    ensures charge { IfOk result (λ x. x.charge ≡ charge (graph journal.old.geometry (disk M.Media journal.old))) }
    ensures damaged { IfErr result (λ e. OnDamage e (IsDamaged journal.old.geometry (disk M.Media journal.old))) }
    ensures looks { Looks M.Media journal.old journal.new result }
{
    // For the proof: each tier is as long as its sizes say.
    journal.left_now();
    let geometry = journal.geometry();
    let mut used = UsedBlocks::new(alloc, &geometry)?;
    let charge = read_area(alloc, journal, &mut used)?;
    if (geometry.units() as u64) < charge {
        return Err(AreaError::Damaged {
            what: What::Super,
            block: SUPER_BLOCK,
        });
    }
    Ok(OpenArea {
        used,
        marks,
        charge,
    })
}

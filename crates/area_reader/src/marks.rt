// The marks as they are read.
ghost use Rattle.std.specs.Prelude.{◌≡◌, ◌≢◌, Some, None, IfOk, IfErr};
ghost use Rattle.batch_journal.specs.layout.declared.error.What.TheVariants as what;
ghost use Rattle.batch_journal.specs.layout.declared.places.TheConstants.{MARKS_BLOCK};
ghost use Rattle.batch_journal.specs.layout.Marks.{marks_of};
ghost use Rattle.area_reader.specs.Store.{disk, marks};
ghost use Rattle.area_reader.specs.Damage.{OnDamage, IsMarksDamage};
ghost use Rattle.area_reader.specs.Looks.{Looks};
ghost use Rattle.area_reader.specs.declared.error.AreaError.TheVariants.{Damaged, Memory};

use crate::block_reads::{blank_block, read_block};
use crate::error::AreaError;
use batch_journal::Journal;
use batch_journal::in_layout::{MARKS_BLOCK, Marks, What};
use tier_device::{Media, Tier};

/// The marks of the clients, and the number of digests. `Damaged` names them, where their block spells none.
pub fn read_marks<M: Media>(journal: &mut Journal<M>) -> Result<Marks, AreaError>
    ensures marks { IfOk result (λ m. marks (disk M.Media journal.old) ≡ Some m) }
    ensures damaged { IfErr result (λ e. OnDamage e (IsMarksDamage (disk M.Media journal.old))) }
    ensures only { IfErr result (λ e. e ≢ Memory) }
    ensures looks { Looks M.Media journal.old journal.new result }
{
    let mut bytes = blank_block();
    read_block(journal, Tier::Fast, MARKS_BLOCK, &mut bytes)?;
    marks_in(&bytes)
}

// The marks that a block spells.
fn marks_in(block: &[u8]) -> Result<Marks, AreaError>
    ensures marks { IfOk result (λ m. marks_of block.now ≡ Some m) }
    ensures damaged { IfErr result (λ e. (e ≡ Damaged what.Marks MARKS_BLOCK) × (marks_of block.now ≡ None)) }
{
    match Marks::decode(block) {
        Ok(marks) => Ok(marks),
        Err(_) => Err(AreaError::Damaged {
            what: What::Marks,
            block: MARKS_BLOCK,
        }),
    }
}

//! What a kernel knows of its opening.

ghost use Rattle.std.specs.Prelude.{◌≡◌, ◌↔◌, ℕ, IsTrue, Some, true};
ghost use Rattle.posix_calls.specs.Operations.{is_client};
ghost use Rattle.migrator.specs.area_reader.Store.{disk, marks as marks_of};
ghost use Rattle.kernel_fs.specs.MachineState.{StandBeforeRegions, done_in};

use crate::initial_value::OpenedFrom;
use digester::mark_of;
use migrator::in_layout::Marks;
use migrator::in_shared_area::Shared;
use posix_calls::MAX_CLIENTS;
use std::marker::Model;
use tier_device::Media;

/// What the shared media were when a kernel was opened over them, and whether each client's mark stood before a region then. Contracts see the media.
#[derive(Drop)]
pub struct Opening<M: Media> {
    area: OpenedFrom<Shared<M>>,
    before: bool,
}

impl<M: Media> Model for Opening<M> {
    ghost use Rattle.std.specs.Prelude.{◌↔◌, IsTrue};
    ghost use Rattle.migrator.specs.batch_journal.View.{JournalView};
    ghost use Rattle.migrator.specs.area_reader.Store.{disk};
    ghost use Rattle.kernel_fs.specs.MachineState.{StandBeforeRegions};

    ghost Value = { JournalView M };

    ghost view = { λ o. o.area.value };

    ghost invariant = { λ o. IsTrue o.before ↔ StandBeforeRegions (disk M.Media o.area.value) };
}

impl<M: Media> Opening<M> {
    /// The opening over an area as it is now, whose marks these are. It makes no device call.
    pub fn of(area: &Shared<M>, marks: &Marks) -> Opening<M>
        requires { marks_of (disk M.Media area.now) ≡ Some marks.now }
        ensures { result ≡ area.now }
    {
        Opening {
            area: OpenedFrom::of(area),
            before: are_before_regions(marks),
        }
    }

    /// Whether each mark stood before a region.
    pub fn is_before_regions(&self) -> bool
        ensures { IsTrue result ↔ StandBeforeRegions (disk M.Media self.now) }
    {
        self.before
    }
}

// Whether each of these marks stands before a region.
fn are_before_regions(marks: &Marks) -> bool
    ensures { IsTrue result ↔ ((c : ℕ) → is_client c ≡ true → done_in marks.now c ≡ 0) }
{
    'clients: for client in 1..MAX_CLIENTS + 1 {
        if mark_of(marks, client).done != 0 {
            return false;
        }
    }
    true
}

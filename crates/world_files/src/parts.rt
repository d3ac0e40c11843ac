// The parts of a world as a row of media.
ghost use Rattle.std.specs.Prelude.{◌≡◌, ◌∷◌, length, IfErr, IfOk};
ghost use Rattle.recovery.specs.area_recovery.Regions.{REGIONS};
ghost use Rattle.recovery.specs.event_lists.Courses.{PARTS};
ghost use Rattle.world_files.specs.declared.error.WorldFileError.TheVariants.{Memory};

use crate::error::WorldFileError;
use recovery::Parts;
use tier_device::Media;

/// The parts whose shared medium is the first of these media, and whose regions are the others.
pub(crate) fn parts_of<M: Media + Drop>(media: Vec<M>) -> Parts<M>
    requires { length media.items ≡ PARTS }
    ensures media { result.shared ∷ result.regions ≡ media.items }
    ensures sixteen { length result.regions ≡ REGIONS }
{
    let mut media = media;
    let shared = media.remove(0);
    match Parts::new(shared, media) {
        Ok(parts) => parts,
        Err(_) => unreachable!(),
    }
}

/// The shared medium, and behind it those of the regions. Refused is want of memory.
pub(crate) fn media_of<M: Media + Drop>(parts: Parts<M>) -> Result<Vec<M>, WorldFileError>
    ensures media { IfOk result (λ media. media.items ≡ parts.shared ∷ parts.regions) }
    ensures only { IfErr result (λ e. e ≡ Memory) }
{
    let (shared, regions) = parts.into_media();
    let mut media = regions;
    match media.insert(0, shared) {
        Ok(()) => Ok(media),
        Err(_) => Err(WorldFileError::Memory),
    }
}

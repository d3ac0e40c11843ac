// What the shared medium holds, as it stands.
use crate::image::{Image, medium_of};
use script::Text;
use std::alloc::Global;
use tier_device::{MemMedia, Tier};
use world_files::in_area_reader::AreaError;
use world_files::in_layout::CLIENTS;
use world_files::in_shared_area::Shared;

/// Prints the charge, what is free, and the marks. A damaged medium has none of them: recovery then names the structure.
pub fn describe_area(alloc: Global, image: &Image<'_>, text: &mut Text) {
    match open_area(alloc, image) {
        Ok(area) => {
            describe_charge(&area, text);
            describe_marks(&area, text);
        }
        Err(AreaError::Damaged { .. }) => {}
        Err(_) => text.cut(),
    }
}

fn open_area(alloc: Global, image: &Image<'_>) -> Result<Shared<MemMedia>, AreaError> {
    let medium = medium_of(alloc, image.fast, image.block, image.slow)?;
    match Shared::reopen(alloc, medium) {
        Ok(area) => Ok(area),
        Err((error, _medium)) => Err(error),
    }
}

fn describe_charge(area: &Shared<MemMedia>, text: &mut Text) {
    text.field("charge ", &area.charge());
    text.field(" of ", &area.geometry().units());
    text.field("\nfree fast ", &area.free(Tier::Fast));
    text.field(" block ", &area.free(Tier::Block));
    text.field(" slow ", &area.free(Tier::Slow));
    text.put("\n");
}

fn describe_marks(area: &Shared<MemMedia>, text: &mut Text) {
    let marks = area.marks();
    for place in 0..CLIENTS {
        let mark = marks.clients[place];
        text.field("mark ", &(place + 1));
        text.field(" generation ", &mark.generation);
        text.field(" digested ", &mark.done);
        text.put("\n");
    }
}

// A run of `strata_check`.
use crate::area::describe_area;
use crate::damage::describe_damage;
use crate::image::{cut_image, image_len};
use crate::options::read_path;
use crate::region_list::describe_regions;
use crate::tree::describe_recovery;
use program_runs::{tell, tell_fault};
use script::{RunError, Text};
use std::alloc::Global;
use std::io::Write;
use tier_device::Tier;
use world_files::in_host_media::FileProblem;
use world_files::in_layout::{Geometry, What};
use world_files::{ImageFile, WorldFileError, read_geometry};

/// Runs `strata_check`: prints on `out` what the file holds that the words name. The first word is the program's name.
///
/// Answers the exit status: 0 where a world is recovered, 1 where what the file holds is damaged or none is recovered, 2 where the words can't be read, 3 after a fault of the file, of the output or of
/// memory; the last two with a line on `err`. All that there was memory for is printed before.
pub fn run_check<'a, O: Write, E: Write>(
    rt: &HostRuntime,
    words: &'a [&'a str],
    out: &mut O,
    err: &mut E,
) -> u8 {
    match read_path(rt.alloc(), words) {
        Ok(path) => check_file(rt, path, out, err),
        Err(error) => tell(error, out, err),
    }
}

fn check_file<O: Write, E: Write>(rt: &HostRuntime, path: &str, out: &mut O, err: &mut E) -> u8 {
    match read_file(rt, path) {
        Ok(image) => check_image(rt.alloc(), &image, out, err),
        Err(error) => {
            let _ = writeln!(err, "{path}: {error}");
            3
        }
    }
}

// The bytes of a file, which is locked meanwhile.
fn read_file(rt: &HostRuntime, path: &str) -> Result<Vec<u8>, WorldFileError> {
    let file = ImageFile::open(rt, rt.alloc(), path)?;
    match file.read(rt.alloc())? {
        Some(bytes) => Ok(bytes),
        None => Err(WorldFileError::File(FileProblem::Missing)),
    }
}

// Prints what an image holds, and answers the exit status.
fn check_image<O: Write, E: Write>(alloc: Global, bytes: &[u8], out: &mut O, err: &mut E) -> u8 {
    let mut text = Text::new(alloc);
    let is_recovered = describe_image(alloc, bytes, &mut text);
    match print_text(&text, out) {
        Ok(()) if is_recovered => 0,
        Ok(()) => 1,
        Err(fault) => tell_fault(fault, err),
    }
}

// Prints a text, as far as there was memory for it.
fn print_text<O: Write>(text: &Text, out: &mut O) -> Result<(), RunError> {
    out.write_all(text.as_str().as_bytes())?;
    out.flush()?;
    if text.is_cut() {
        return Err(RunError::Memory);
    }
    Ok(())
}

// Prints what an image holds, and answers whether a world is recovered from it.
fn describe_image(alloc: Global, bytes: &[u8], text: &mut Text) -> bool {
    match read_geometry(bytes) {
        Ok(geometry) => describe_media(alloc, bytes, &geometry, text),
        Err(_) => {
            describe_damage(What::Super, 0, text);
            false
        }
    }
}

fn describe_media(alloc: Global, bytes: &[u8], geometry: &Geometry, text: &mut Text) -> bool {
    describe_sizes(geometry, text);
    match cut_image(bytes, geometry) {
        Some(image) => {
            describe_area(alloc, &image, text);
            describe_regions(alloc, image.regions, text);
            describe_recovery(alloc, bytes, text)
        }
        None => {
            text.field("no world ", &bytes.len());
            text.field(" of ", &image_len(geometry));
            text.put("\n");
            false
        }
    }
}

fn describe_sizes(geometry: &Geometry, text: &mut Text) {
    text.field("units ", &geometry.units());
    text.field(" fast ", &geometry.data_blocks(Tier::Fast));
    text.field(" block ", &geometry.data_blocks(Tier::Block));
    text.field(" slow ", &geometry.data_blocks(Tier::Slow));
    text.put("\n");
}

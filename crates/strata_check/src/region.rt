// What a region holds, as it stands.
use crate::image::medium_of;
use script::Text;
use script::in_log_record::is_payload;
use script::in_update_log::{HEADER, OPEN, REGION_SIZE, Region, Stage};
use std::alloc::Global;
use tier_device::MemMedia;

/// Whose region it is, and of which generations.
#[derive(Clone, Copy)]
pub struct Owner {
    pub client: u32,
    pub parity: &'static str,
}

impl Owner {
    // Some words, and whose region it is.
    fn put(self, words: &str, text: &mut Text) {
        text.field(words, &self.client);
        text.put(self.parity);
    }
}

/// Prints the generation of a region, its records, and what stands behind them.
pub fn describe_region(alloc: Global, owner: Owner, bytes: &[u8], text: &mut Text) {
    match open_region(alloc, bytes) {
        Some(region) => {
            let mut region = region;
            describe_header(owner, &mut region, text);
            describe_end(owner, &region, bytes, text);
        }
        None => text.cut(),
    }
}

// The region of these bytes; none where there is no memory for it.
fn open_region(alloc: Global, bytes: &[u8]) -> Option<Region<MemMedia>> {
    match medium_of(alloc, bytes, &[], &[]) {
        Ok(medium) => match Region::reopen(alloc, medium) {
            Ok(region) => Some(region),
            Err(_) => None,
        },
        Err(_) => None,
    }
}

fn describe_header(owner: Owner, region: &mut Region<MemMedia>, text: &mut Text) {
    owner.put("region ", text);
    match region.generation() {
        Ok(generation) => text.field(" generation ", &generation),
        Err(_) => text.cut(),
    }
    match region.records() {
        Ok(records) => text.field(" records ", &records.len()),
        Err(_) => text.cut(),
    }
}

// Prints how many bytes the records have, and what stands behind them.
fn describe_end(owner: Owner, region: &Region<MemMedia>, bytes: &[u8], text: &mut Text) {
    match gate_behind(region) {
        Some(gate) => {
            text.field(" bytes ", &gate.saturating_sub(HEADER));
            text.put("\n");
            describe_gate(owner, region, bytes.get(gate..).unwrap_or(&[]), text);
        }
        None => text.put(" full\n"),
    }
}

// The place of the gate behind the records; none where no further record has room.
fn gate_behind(region: &Region<MemMedia>) -> Option<usize> {
    Some(REGION_SIZE.saturating_sub(6).saturating_sub(region.room()?))
}

// Prints an open gate behind the records, or of a record behind a closed one.
fn describe_gate(owner: Owner, region: &Region<MemMedia>, behind: &[u8], text: &mut Text) {
    if region.stage() == Stage::Foreign {
        owner.put("open ", text);
        text.put("\n");
    } else if let Some(len) = begun_len(behind) {
        owner.put("begun ", text);
        text.field(" bytes ", &len);
        text.put("\n");
    }
}

// How many bytes the record spells that stands whole behind a closed gate, with a place for the next gate behind it.
fn begun_len(bytes: &[u8]) -> Option<usize> {
    match bytes {
        [gate, a, b, c, d, behind @ ..] if *gate != OPEN => {
            let len = u32::from_le_bytes([*a, *b, *c, *d]) as usize;
            payload_len(behind, len)
        }
        _ => None,
    }
}

fn payload_len(behind: &[u8], len: usize) -> Option<usize> {
    let payload = behind.get(..len)?;
    if len < behind.len() && is_payload(payload) {
        Some(len)
    } else {
        None
    }
}

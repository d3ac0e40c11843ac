// Where the records of a region end, the records, and which inodes they touch.
ghost use Rattle.std.specs.Prelude.{◌≡◌, ◌≢◌, ◌⊎◌, ◌≤◌, ◌<◌, ◌+◌, [], length, take, drop, get_or, map, option_map, Some, false, true, IfOk, IfSome, IfNone};
ghost use Rattle.log_record.specs.Grammar.{record_of};
ghost use Rattle.log_record.specs.Touches.{inodes_of};
ghost use Rattle.update_log.specs.Frames.{payloads, payloads_from, is_whole, before_gate, records, spelled_records, end_behind, is_payload as is_payload_of};
ghost use Rattle.update_log.specs.Scan.{IsRecordAt, IsPayloadBehind};
ghost use Rattle.update_log.specs.declared.stage.Stage.TheVariants.{Resting, Foreign};
ghost use Rattle.update_log.specs.declared.format.TheConstants.{OPEN};
ghost use Rattle.update_log.specs.Stage.{IsFront, IsIdle};

use crate::format::{HEADER, OPEN};
use crate::laws::records_are_as_long;
use crate::stage::Stage;
use byteorder::{ByteOrder, LittleEndian};
use log_record::{
    Record, RecordError, TouchedInodes, is_payload, read_payload, read_touched_inodes,
};
use std::alloc::{AllocError, Global};

/// The place of the gate behind the last record of a content.
pub fn end_of(content: &[u8]) -> usize
    requires { 16 < length content.now }
    ensures within { result < length content.now }
    ensures front { IsFront (take result content.now) }
    ensures records { payloads content.now ≡ before_gate (take result content.now) }
    ensures behind { result ≡ end_behind (records content.now) }
{
    // For the proof: records take as many bytes as their spellings.
    records_are_as_long();
    let mut end = HEADER;
    'records: while let Some(payload) = payload_at(content, end) {
        end += 5 + payload.len();
    }
    end
}

/// The records in what stands behind a header.
pub fn records_in(alloc: Global, content: &[u8]) -> Result<Vec<Record>, AllocError>
    requires { 0 < length content.now }
    ensures { IfOk result (λ found. found.items ≡ spelled_records (payloads_from 0 content.now)) }
{
    let mut found = Vec::new(alloc);
    let mut end = 0;
    'records: while let Some(payload) = payload_at(content, end) {
        found.push(record_in(alloc, payload)?)?;
        end += 5 + payload.len();
    }
    Ok(found)
}

/// The inodes that each of the records touches which stand behind the header of a content.
pub fn touched_inodes_in(alloc: Global, content: &[u8]) -> Result<Vec<TouchedInodes>, AllocError>
    requires { 16 < length content.now }
    ensures { IfOk result (λ found. found.items ≡ map inodes_of (records content.now)) }
{
    let mut found = Vec::new(alloc);
    let mut end = HEADER;
    'records: while let Some(payload) = payload_at(content, end) {
        found.push(touched_inodes_of(payload))?;
        end += 5 + payload.len();
    }
    Ok(found)
}

// The inodes that the record of a payload touches.
fn touched_inodes_of(payload: &[u8]) -> TouchedInodes
    requires { is_payload_of payload.now ≡ true }
    ensures { Some result ≡ option_map inodes_of (record_of payload.now) }
{
    match read_touched_inodes(payload) {
        Some(inodes) => inodes,
        None => unreachable!(),
    }
}

// The record that a payload spells.
fn record_in(alloc: Global, payload: &[u8]) -> Result<Record, AllocError>
    requires { is_payload_of payload.now ≡ true }
    ensures { IfOk result (λ r. record_of payload.now ≡ Some r) }
{
    match read_payload(alloc, payload) {
        Ok(record) => Ok(record),
        Err(RecordError::Memory) => Err(AllocError),
        Err(RecordError::NoRecord) => unreachable!(),
    }
}

// The payload of the record whose gate stands there, if one does.
fn payload_at(content: &[u8], at: usize) -> Option<&[u8]>
    requires { at < length content.now }
    ensures some { IfSome result (λ p. IsRecordAt content.now at p.now) }
    ensures none { IfNone result (payloads_from 0 (drop at content.now) ≡ []) }
{
    if content[at] != OPEN {
        return None;
    }
    whole_payload(&content[at + 1..])
}

// The payload behind a gate, if it is a record's and the next gate has a place behind it.
fn whole_payload(behind: &[u8]) -> Option<&[u8]>
    ensures some { IfSome result (λ p. IsPayloadBehind behind.now p.now) }
    ensures none { IfNone result (is_whole behind.now ≡ false) }
{
    if behind.len() <= 4 {
        return None;
    }
    let len = LittleEndian::read_u32(behind) as usize;
    if behind.len() - 4 <= len || !is_payload(&behind[4..4 + len]) {
        return None;
    }
    Some(&behind[4..4 + len])
}

/// What a region at rest is: a record may be begun behind a closed gate alone, since an open one would count as soon as
/// bytes are written behind it.
pub fn stage_at(content: &[u8], end: usize) -> Stage
    requires { end < length content.now }
    ensures shut { result ≡ Resting → get_or content.now end 0 ≢ OPEN }
    ensures idle { IsIdle result }
    ensures open { result ≡ Foreign → get_or content.now end 0 ≡ OPEN }
{
    if content[end] == OPEN {
        Stage::Foreign
    } else {
        Stage::Resting
    }
}

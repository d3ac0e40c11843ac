//! Numbers of a message, both ways.

ghost use Rattle.std.specs.Prelude.{◌≡◌, ◌≤◌, ◌<◌, ◌+◌, ◌*◌, ◌++◌, length, vec_len, vec_capacity};
ghost use Rattle.fuse_wire.specs.Fields.{u16 as bytes_2, u32 as bytes_4, u64 as bytes_8, u32_at, u64_at, has_bit, field_bytes, fields_bytes};

use byteorder::{ByteOrder, LittleEndian};

/// A number of two, four or eight bytes.
#[derive(Clone, Copy)]
pub enum Field {
    Two(u16),
    Four(u32),
    Eight(u64),
}

/// Reads a number of four bytes, the lowest first, at `place`.
#[tactic(auto, unfolding(crate::specs::Fields::u32_at))]
pub fn u32_at(bytes: &[u8], place: usize) -> u32
    requires { place + 4 ≤ length bytes.now }
    ensures { result ≡ u32_at place bytes.now }
{
    LittleEndian::read_u32(&bytes[place..])
}

/// Reads a number of eight bytes, the lowest first, at `place`.
#[tactic(auto, unfolding(crate::specs::Fields::u64_at))]
pub fn u64_at(bytes: &[u8], place: usize) -> u64
    requires { place + 8 ≤ length bytes.now }
    ensures { result ≡ u64_at place bytes.now }
{
    LittleEndian::read_u64(&bytes[place..])
}

/// Answers whether a bit is set; the lowest is bit 0, the highest bit 31.
pub fn has_bit(bit: u32, flags: u32) -> bool
    requires { bit < 32 }
    ensures { result ≡ has_bit bit flags }
{
    flags >> bit & 1 == 1
}

/// Counts the bytes of up to 32 fields: eight a field at most.
pub fn fields_len(fields: &[Field]) -> usize
    requires { length fields.now ≤ 32 }
    ensures len { result ≡ length (fields_bytes fields.now) }
    ensures short { result ≤ 8 * length fields.now }
{
    let mut len = 0;
    for field in fields {
        len += field_len(*field);
    }
    len
}

#[tactic(auto, using(crate::proofs::Lengths::lengths))]
fn field_len(field: Field) -> usize
    ensures len { result ≡ length (field_bytes field) }
    ensures short { result ≤ 8 }
{
    match field {
        Field::Two(_) => 2,
        Field::Four(_) => 4,
        Field::Eight(_) => 8,
    }
}

/// Appends the bytes of the fields. `out` has room for eight bytes a field, so this takes no memory.
pub fn push_fields(out: &mut Vec<u8>, fields: &[Field])
    requires { vec_len out.old + 8 * length fields.now ≤ vec_capacity out.old }
    ensures written { out.new.items ≡ out.old.items ++ fields_bytes fields.now }
    ensures short { vec_len out.new ≤ vec_len out.old + 8 * length fields.now }
    ensures capacity { vec_capacity out.old ≤ vec_capacity out.new }
{
    for field in fields {
        push_field(out, *field);
    }
}

fn push_field(out: &mut Vec<u8>, field: Field)
    requires { vec_len out.old + 8 ≤ vec_capacity out.old }
    ensures written { out.new.items ≡ out.old.items ++ field_bytes field }
    ensures short { vec_len out.new ≤ vec_len out.old + 8 }
    ensures capacity { vec_capacity out.old ≤ vec_capacity out.new }
{
    match field {
        Field::Two(number) => push_u16(out, number),
        Field::Four(number) => push_u32(out, number),
        Field::Eight(number) => push_u64(out, number),
    }
}

#[tactic(auto, unfolding(crate::specs::Fields::u16))]
fn push_u16(out: &mut Vec<u8>, number: u16)
    requires { vec_len out.old + 2 ≤ vec_capacity out.old }
    ensures written { out.new.items ≡ out.old.items ++ bytes_2 number }
    ensures len { vec_len out.new ≡ vec_len out.old + 2 }
    ensures capacity { vec_capacity out.old ≤ vec_capacity out.new }
{
    let mut bytes = [0; 2];
    LittleEndian::write_u16(&mut bytes, number);
    push_bytes(out, &bytes);
}

/// Appends a number as four bytes, the lowest first. `out` has room for them, so this takes no memory.
#[tactic(auto, unfolding(crate::specs::Fields::u32))]
pub fn push_u32(out: &mut Vec<u8>, number: u32)
    requires { vec_len out.old + 4 ≤ vec_capacity out.old }
    ensures written { out.new.items ≡ out.old.items ++ bytes_4 number }
    ensures len { vec_len out.new ≡ vec_len out.old + 4 }
    ensures capacity { vec_capacity out.old ≤ vec_capacity out.new }
{
    let mut bytes = [0; 4];
    LittleEndian::write_u32(&mut bytes, number);
    push_bytes(out, &bytes);
}

/// Appends a number as eight bytes, the lowest first. `out` has room for them, so this takes no memory.
#[tactic(auto, unfolding(crate::specs::Fields::u64))]
pub fn push_u64(out: &mut Vec<u8>, number: u64)
    requires { vec_len out.old + 8 ≤ vec_capacity out.old }
    ensures written { out.new.items ≡ out.old.items ++ bytes_8 number }
    ensures len { vec_len out.new ≡ vec_len out.old + 8 }
    ensures capacity { vec_capacity out.old ≤ vec_capacity out.new }
{
    let mut bytes = [0; 8];
    LittleEndian::write_u64(&mut bytes, number);
    push_bytes(out, &bytes);
}

/// Appends bytes. `out` has room for them, so this takes no memory.
pub fn push_bytes(out: &mut Vec<u8>, bytes: &[u8])
    requires { vec_len out.old + length bytes.now ≤ vec_capacity out.old }
    ensures written { out.new.items ≡ out.old.items ++ bytes.now }
    ensures len { vec_len out.new ≡ vec_len out.old + length bytes.now }
    ensures capacity { vec_capacity out.old ≤ vec_capacity out.new }
{
    match out.extend_from_slice(bytes) {
        Ok(()) => {}
        Err(_) => unreachable!(),
    }
}

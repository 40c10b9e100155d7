// Frame lengths in one or two bytes (RFC 6716, section 3.2.1): `encode_size` and `parse_size` of opus.rs.
#![tactic(auto)]

ghost use Rattle.std.specs.Prelude.{◌≡◌, ◌+◌, ◌*◌, ◌<◌, ◌≤◌, length};
ghost use Rattle.std.proofs.lemmas.List.Edits.{sets};
ghost use Rattle.opus_size.specs.Size.{most_bytes, length_field};
ghost use Rattle.opus_size.specs.Answers.{encode_size, size_told, parse_size, size_at};

use opus_defines::{Refusal, Rule};

// The longest frame, in bytes.
pub const MOST_BYTES: usize = 1275;

// The size that a field of two bytes says.
fn two_bytes(first: u8, second: u8) -> u16
    ensures { result ≡ 4 * second + first }
{
    4 * (second as u16) + (first as u16)
}

// A length at a place: the size, and the place behind its field, if that is whole.
pub fn size_at(data: &[u8], at: usize) -> Option<(u16, usize)>
    ensures { result ≡ size_at «data».now at }
{
    if data.len() <= at {
        return None;
    }
    let first = data[at];
    if first < 252 {
        return Some((first as u16, at + 1));
    }
    if data.len() <= at + 1 {
        return None;
    }
    Some((two_bytes(first, data[at + 1]), at + 2))
}

// What `parse_size` answers: the bytes used and the size.
#[derive(Clone, Copy, Debug, PartialEq, Eq)]
pub struct Size {
    pub bytes: usize,
    pub size: u16,
}

// The length at the front of `data`, for which a rule asks.
fn size_told(data: &[u8], rule: Rule) -> Result<Size, Refusal>
    ensures { result ≡ size_told rule «data».now }
{
    let (size, bytes) = size_at(data, 0).ok_or(Refusal::CutShort(rule))?;
    Ok(Size { bytes, size })
}

// The length at the front of `data`, told that rule 4, 7 or 8 asks for it.
pub fn parse_size(data: &[u8], rule: u16) -> Result<Size, Refusal>
    ensures { result ≡ parse_size rule «data».now }
{
    match rule {
        4 => size_told(data, Rule::R4),
        7 => size_told(data, Rule::R7),
        8 => size_told(data, Rule::R8),
        _ => Err(Refusal::BadArg),
    }
}

// How many bytes the field of a size takes.
pub fn size_bytes(size: usize) -> usize
    ensures { result ≡ length (length_field size) }
{
    if size < 252 { 1 } else { 2 }
}

// Writes the field of a size at a place, and says where it ends.
pub fn put_size(data: &mut [u8], at: usize, size: usize) -> usize
    requires { (size ≤ most_bytes) × (at + length (length_field size) ≤ length «data».old) }
    ensures bytes { «data».new ≡ sets «data».old at (length_field size) }
    ensures next { result ≡ at + length (length_field size) }
{
    if size < 252 {
        data[at] = size as u8;
        return at + 1;
    }
    data[at] = (252 + size % 4) as u8;
    data[at + 1] = (size / 4 - 63) as u8;
    at + 2
}

// Writes the field of a size at the front of `data`, and answers its bytes.
pub fn encode_size(size: i32, data: &mut [u8]) -> i32
    ensures number { result ≡ (encode_size size «data».old).report.number }
    ensures bytes { «data».new ≡ (encode_size size «data».old).bytes }
{
    let Some(n) = opus_defines::count_of(size) else {
        return opus_defines::refusal_number(Refusal::BadArg);
    };
    if MOST_BYTES < n {
        return opus_defines::refusal_number(Refusal::BadArg);
    }
    if data.len() < size_bytes(n) {
        return opus_defines::refusal_number(Refusal::BufferTooSmall);
    }
    let next = put_size(data, 0, n);
    opus_defines::number_of(Ok(next as u16))
}

// Pad and unpad, where the packet lies (repacketizer.rs): the packet is read, then refused or rewritten, so that a refusal leaves every byte.
// A rewrite moves the block of frames, then writes the header in front of it and zeros behind it.
#![tactic(auto)]

pub mod lengths;

ghost use Rattle.std.specs.Prelude.{◌≡◌, false, ◌+◌, ◌<◌, ◌≤◌, length, take, drop};
ghost use Rattle.std.proofs.lemmas.List.Edits.{sets};
ghost use Rattle.opus_defines.specs.Numbers.{report_of};
ghost use Rattle.opus_defines.specs.Outcome.{leaves};
ghost use Rattle.opus_size.specs.Size.{most_bytes};
ghost use Rattle.opus_toc.specs.Toc.{upper_six};
ghost use Rattle.opus_format.specs.Frames.{cut, total, longest};
ghost use Rattle.blocks.specs.Blocks.{part, moved};
ghost use Rattle.opus_header.specs.Header.{compact_header};
ghost use Rattle.opus_header.specs.Compact.{compact, filling};
ghost use Rattle.opus_header.specs.Sums.{sums_of};
ghost use Rattle.opus_header.specs.Forms.{missing, form_packet};
ghost use Rattle.packet_pad.specs.Pad.{answered, pad_packet, padded};
ghost use Rattle.packet_pad.specs.Unpad.{unpad_packet, unpadded};

use crate::lengths::{Lengths, length_of, lengths_of};
use opus_defines::{Refusal, Report};
use opus_header::{Form, Sums};

// A block of n bytes moved either way.
fn move_block(data: &mut [u8], from: usize, to: usize, n: usize)
    requires { (from + n ≤ length «data».old) × (to + n ≤ length «data».old) }
    ensures { «data».new ≡ moved «data».old from to n }
{
    if to <= from {
        blocks::moves::move_down(data, from, to, n);
    } else {
        blocks::moves::move_up(data, from, to, n);
    }
}

// Rewrites the frames of lengths `ns` that stand in `data` from place `first` on as a packet at its front, and answers its bytes.
fn rewrite(
    data: &mut [u8],
    toc: u8,
    ns: &[u16],
    m: Sums,
    form: Form,
    self_delimited: bool,
    first: usize,
) -> usize
    requires measured { m ≡ sums_of ns.now }
    requires some { (1 ≤ length ns.now) × (length ns.now ≤ 48) × (longest ns.now ≤ most_bytes) }
    requires few { missing form ≤ 65535 }
    requires block { first + total ns.now ≤ length «data».old }
    requires room { length (form_packet self_delimited (upper_six toc) ns.now form (part «data».old first (total ns.now)))
        ≤ length «data».old }
    ensures bytes { «data».new
        ≡ sets «data».old 0
        (form_packet self_delimited (upper_six toc) ns.now form (part «data».old first (total ns.now))) }
    ensures next { result
        ≡ length (form_packet self_delimited (upper_six toc) ns.now form (part «data».old first (total ns.now))) }
{
    let total = m.total;
    let at = opus_header::header_bytes(m, form, self_delimited);
    move_block(data, first, at, total);
    opus_header::put_header(data, toc, ns, m, form, self_delimited);
    let zeros = opus_header::pad_bytes(form);
    blocks::fill(data, at + total, zeros, 0);
    at + total + zeros
}

// Frames of lengths `ns` at place `first` become a packet of `new_len` bytes.
fn pad_frames(data: &mut [u8], toc: u8, ns: &[u16], first: usize, new_len: usize)
    requires some { (1 ≤ length ns.now) × (length ns.now ≤ 48) × (longest ns.now ≤ most_bytes) }
    requires block { first + total ns.now ≤ length «data».old }
    requires room { (length (compact_header false (upper_six toc) ns.now) + total ns.now ≤ new_len)
        × (new_len ≤ length «data».old) × (new_len ≤ 65535) }
    ensures { «data».new
        ≡ sets «data».old 0 (filling false (upper_six toc) (cut ns.now (drop first «data».old)) new_len) }
{
    let m = opus_header::sums_of(ns);
    let need = opus_header::compact_bytes(ns.len(), m, false);
    let form = opus_header::form_for(ns.len(), need, new_len, true);
    rewrite(data, toc, ns, m, form, false, first);
}

// The packet in the first `len` bytes, padded to more.
pub fn pad_packet(data: &mut [u8], len: usize, new_len: usize) -> Result<u16, Refusal>
    requires { (len < new_len) × (new_len ≤ length «data».old) × (new_len ≤ 65535) }
    ensures answer { result ≡ answered (pad_packet (take len «data».old) new_len) }
    ensures bytes { «data».new ≡ (leaves «data».old (pad_packet (take len «data».old) new_len)).bytes }
{
    let mut lengths = [0u16; 48];
    let p = opus::read_into(&data[..len], false, &mut lengths)?;
    pad_frames(data, p.toc, &lengths[..p.count as usize], p.first, new_len);
    Ok(opus_defines::OPUS_OK)
}

fn pad_answer(data: &mut [u8], len: i32, new_len: i32) -> Result<u16, Refusal>
    ensures report { report_of result ≡ (padded «data».old len new_len).report }
    ensures bytes { «data».new ≡ (padded «data».old len new_len).bytes }
{
    let l = lengths_of(data, len, new_len);
    match l {
        Lengths::Bad => Err(Refusal::BadArg),
        Lengths::Same => Ok(opus_defines::OPUS_OK),
        Lengths::More(n, m) => pad_packet(data, n, m),
    }
}

// Pads the packet in the first `len` bytes of the buffer to `new_len`, and answers 0.
pub fn opus_packet_pad(data: &mut [u8], len: i32, new_len: i32) -> Report
    ensures report { result ≡ (padded «data».old len new_len).report }
    ensures bytes { «data».new ≡ (padded «data».old len new_len).bytes }
{
    opus_defines::report_of(pad_answer(data, len, new_len))
}

// Frames of lengths `ns` at place `first` become the compact packet, whose header is no longer than what stands in front of them.
pub fn compact_frames(
    data: &mut [u8],
    toc: u8,
    ns: &[u16],
    self_delimited: bool,
    first: usize,
) -> usize
    requires some { (1 ≤ length ns.now) × (length ns.now ≤ 48) × (longest ns.now ≤ most_bytes) }
    requires block { first + total ns.now ≤ length «data».old }
    requires short { length (compact_header self_delimited (upper_six toc) ns.now) ≤ first }
    ensures bytes { «data».new
        ≡ sets «data».old 0 (compact self_delimited (upper_six toc) (cut ns.now (drop first «data».old))) }
    ensures next { result ≡ length (compact self_delimited (upper_six toc) (cut ns.now (drop first «data».old))) }
{
    let m = opus_header::sums_of(ns);
    let form = opus_header::compact_form(ns.len());
    rewrite(data, toc, ns, m, form, self_delimited, first)
}

// The packet in the first `len` bytes, without padding and in compact form.
fn unpad_packet(data: &mut [u8], len: usize) -> Result<u16, Refusal>
    requires { (len ≤ length «data».old) × (len ≤ 65535) }
    ensures report { report_of result ≡ (leaves «data».old (unpad_packet (take len «data».old))).report }
    ensures bytes { «data».new ≡ (leaves «data».old (unpad_packet (take len «data».old))).bytes }
{
    let mut lengths = [0u16; 48];
    let p = opus::read_into(&data[..len], false, &mut lengths)?;
    let bytes = compact_frames(data, p.toc, &lengths[..p.count as usize], false, p.first);
    Ok(bytes as u16)
}

fn unpad_answer(data: &mut [u8], len: i32) -> Result<u16, Refusal>
    ensures report { report_of result ≡ (unpadded «data».old len).report }
    ensures bytes { «data».new ≡ (unpadded «data».old len).bytes }
{
    let n = length_of(data, len);
    if n == 0 {
        return Err(Refusal::BadArg);
    }
    unpad_packet(data, n)
}

// Strips the padding of the packet in the first `len` bytes of the buffer, and answers the compact packet's bytes.
pub fn opus_packet_unpad(data: &mut [u8], len: i32) -> Report
    ensures report { result ≡ (unpadded «data».old len).report }
    ensures bytes { «data».new ≡ (unpadded «data».old len).bytes }
{
    opus_defines::report_of(unpad_answer(data, len))
}

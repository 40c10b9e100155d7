// Kinds 3 to 6 and 13 to 16 of the replay protocol: pad and unpad, in place, of packets and of multistream packets. The first four lend the packet, with
// zeros behind it up to the new length, and tell a number; the others lend a buffer, give lengths of any value, and tell rule and place too.
#![tactic(auto)]

ghost use Rattle.std.specs.Prelude.{◌≤◌};

use multistream::{opus_multistream_packet_pad, opus_multistream_packet_unpad};
use opus_defines::Report;
use packet_pad::{opus_packet_pad, opus_packet_unpad};
use replay_io::{MOST, Malformed, Replay};
use std::io::Read;

// ---- kinds 3 to 6: a packet

// The first bytes of a buffer up to `end`, zeros from `len` on.
fn with_zeros(buffer: &mut [u8; MOST], len: usize, end: usize) -> &mut [u8]
    requires { (len ≤ end) × (end ≤ MOST) }
{
    let bytes = &mut buffer[..end];
    bytes[len..].fill(0);
    bytes
}

// Lends a call the packet, with zeros behind it up to its new length; the number is the packet's own length.
fn packet<R: Read + Drop, F: FnOnce(&mut [u8], i32) -> Report>(
    case: &mut Replay<R>,
    new: usize,
    call: F,
) -> Result<(), Malformed>
    requires room { new ≤ MOST }
    requires callable { F.IsAlwaysCallable call }
{
    let len = case.input.bytes(&mut case.work)?.len();
    let lent = with_zeros(&mut case.work, len, len.max(new));
    let r = call(lent, len as i32);
    case.out.number_and_buffer(r.number, lent);
    Ok(())
}

pub fn pad<R: Read + Drop>(case: &mut Replay<R>) -> Result<(), Malformed> {
    let new = case.input.length()?;
    packet(
        case,
        new,
        |data, len| opus_packet_pad(data, len, new as i32),
    )
}

pub fn unpad<R: Read + Drop>(case: &mut Replay<R>) -> Result<(), Malformed> {
    packet(case, 0, opus_packet_unpad)
}

pub fn multistream_pad<R: Read + Drop>(case: &mut Replay<R>) -> Result<(), Malformed> {
    let streams = case.input.i32()?;
    let new = case.input.length()?;
    packet(case, new, |data, len| {
        opus_multistream_packet_pad(data, len, new as i32, streams)
    })
}

pub fn multistream_unpad<R: Read + Drop>(case: &mut Replay<R>) -> Result<(), Malformed> {
    let streams = case.input.i32()?;
    packet(case, 0, |data, len| {
        opus_multistream_packet_unpad(data, len, streams)
    })
}

// ---- kinds 13 to 16: a buffer

// Lends a call the buffer.
fn buffer<R: Read + Drop, F: FnOnce(&mut [u8]) -> Report>(
    case: &mut Replay<R>,
    call: F,
) -> Result<(), Malformed>
    requires { F.IsAlwaysCallable call }
{
    let lent = case.input.buffer(&mut case.work)?;
    let r = call(lent);
    case.out.report_and_buffer(r, lent);
    Ok(())
}

pub fn pad_with_place<R: Read + Drop>(case: &mut Replay<R>) -> Result<(), Malformed> {
    let len = case.input.i32()?;
    let new = case.input.i32()?;
    buffer(case, |data| opus_packet_pad(data, len, new))
}

pub fn unpad_with_place<R: Read + Drop>(case: &mut Replay<R>) -> Result<(), Malformed> {
    let len = case.input.i32()?;
    buffer(case, |data| opus_packet_unpad(data, len))
}

pub fn multistream_pad_with_place<R: Read + Drop>(case: &mut Replay<R>) -> Result<(), Malformed> {
    let streams = case.input.i32()?;
    let len = case.input.i32()?;
    let new = case.input.i32()?;
    buffer(case, |data| {
        opus_multistream_packet_pad(data, len, new, streams)
    })
}

pub fn multistream_unpad_with_place<R: Read + Drop>(case: &mut Replay<R>) -> Result<(), Malformed> {
    let streams = case.input.i32()?;
    let len = case.input.i32()?;
    buffer(case, |data| {
        opus_multistream_packet_unpad(data, len, streams)
    })
}

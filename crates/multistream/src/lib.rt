// Pad and unpad of multistream packets, where they lie (repacketizer.rs). All streams are read before the first is rewritten, and a
// rewritten stream never reaches an unread byte, since none is longer than it was.
#![tactic(auto)]

ghost use Rattle.std.specs.Prelude.{◌≡◌, Ok, true, ◌+◌, ◌<◌, ◌≤◌, length, take};
ghost use Rattle.std.proofs.lemmas.List.Edits.{sets};
ghost use Rattle.opus_defines.specs.Numbers.{report_of};
ghost use Rattle.opus_defines.specs.Outcome.{leaves};
ghost use Rattle.opus_format.specs.Reading.{read};
ghost use Rattle.multistream.specs.Streams.{streams_of, pass_by, further, pass_streams};
ghost use Rattle.multistream.specs.Pad.{pad_last, pad_streams, streams_padded};
ghost use Rattle.multistream.specs.Unpad.{repack_streams, unpad_streams, streams_unpadded};
ghost use Rattle.multistream.specs.Parts.{reach, shifted_answer, stream, compact_of, is_accepted, next_places, verdict_by, verdict_of, packed_of};

use opus_defines::{Refusal, Report};
use packet_pad::lengths::{Lengths, length_of, lengths_of};

// Reads the stream at the front of `data`, and answers its bytes.
fn pass_stream(data: &[u8], self_delimited: bool) -> Result<usize, Refusal>
    requires { length «data».now ≤ 65535 }
    ensures { result ≡ pass_by (read self_delimited «data».now) }
{
    let mut lengths = [0u16; 48];
    match opus::read_into(data, self_delimited, &mut lengths) {
        Ok(p) => Ok(p.taken),
        Err(e) => Err(e),
    }
}

// The same counted from so many bytes before it.
fn further_on(p: Result<usize, Refusal>, by: usize) -> Result<usize, Refusal>
    requires { by + reach p < 65536 }
    ensures { result ≡ further by p }
{
    match p {
        Ok(n) => Ok(by + n),
        Err(e) => Err(opus_defines::shift(e, by)),
    }
}

// Reads the first k streams, which are self-delimited, and answers their bytes, or why one of them cannot be read.
#[tactic(auto, using(crate::proofs::Passing::reach_fits))]
pub fn pass_streams(data: &[u8], k: usize) -> Result<usize, Refusal>
    requires { length «data».now ≤ 65535 }
    ensures { result ≡ pass_streams k «data».now }
{
    let mut at: usize = 0;
    for _ in 0..k {
        let p = pass_stream(&data[at..], true);
        let Ok(taken) = p else {
            return further_on(p, at);
        };
        at += taken;
    }
    Ok(at)
}

// What a call on a part of the buffer answers, with places counted from the buffer's front.
fn shift_answer(a: Result<u16, Refusal>, by: usize) -> Result<u16, Refusal>
    requires { (report_of a).place + by < 65536 }
    ensures { result ≡ shifted_answer by a }
{
    match a {
        Ok(n) => Ok(n),
        Err(e) => Err(opus_defines::shift(e, by)),
    }
}

// Pads the last stream, which stands at a place.
fn pad_last(data: &mut [u8], len: usize, new_len: usize, at: usize) -> Result<u16, Refusal>
    requires { (at ≤ len) × (len < new_len) × (new_len ≤ length «data».old) × (new_len ≤ 65535) }
    ensures report { report_of result
        ≡ (leaves «data».old (pad_last (take len «data».old) new_len (Ok at))).report }
    ensures bytes { «data».new
        ≡ (leaves «data».old (pad_last (take len «data».old) new_len (Ok at))).bytes }
{
    if at == len {
        return Err(Refusal::BadArg);
    }
    let a = packet_pad::pad_packet(&mut data[at..], len - at, new_len - at);
    shift_answer(a, at)
}

// The packet in the first `len` bytes, padded to more in its last stream.
fn pad_streams(data: &mut [u8], len: usize, new_len: usize, streams: usize) -> Result<u16, Refusal>
    requires { (len < new_len) × (new_len ≤ length «data».old) × (new_len ≤ 65535) × (1 ≤ streams) }
    ensures report { report_of result ≡ (leaves «data».old (pad_streams streams (take len «data».old) new_len)).report }
    ensures bytes { «data».new
        ≡ (leaves «data».old (pad_streams streams (take len «data».old) new_len)).bytes }
{
    let p = pass_streams(&data[..len], streams - 1);
    match p {
        Ok(at) => pad_last(data, len, new_len, at),
        Err(e) => Err(e),
    }
}

// 1 to 255 streams; 0 for any other number.
#[tactic(auto, using(crate::proofs::Counted::by_count))]
pub fn streams_of(nb_streams: i32) -> usize
    ensures { result ≡ streams_of nb_streams }
{
    let Some(n) = opus_defines::count_of(nb_streams) else {
        return 0;
    };
    if 255 < n {
        return 0;
    }
    n
}

fn pad_answer(data: &mut [u8], len: i32, new_len: i32, nb_streams: i32) -> Result<u16, Refusal>
    ensures report { report_of result ≡ (streams_padded «data».old len new_len nb_streams).report }
    ensures bytes { «data».new ≡ (streams_padded «data».old len new_len nb_streams).bytes }
{
    let streams = streams_of(nb_streams);
    if streams == 0 {
        return Err(Refusal::BadArg);
    }
    let l = lengths_of(data, len, new_len);
    match l {
        Lengths::Bad => Err(Refusal::BadArg),
        Lengths::Same => Ok(opus_defines::OPUS_OK),
        Lengths::More(n, m) => pad_streams(data, n, m, streams),
    }
}

// Pads the multistream packet in the first `len` bytes of the buffer to `new_len`, in its last stream, and answers 0.
pub fn opus_multistream_packet_pad(
    data: &mut [u8],
    len: i32,
    new_len: i32,
    nb_streams: i32,
) -> Report
    ensures report { result ≡ (streams_padded «data».old len new_len nb_streams).report }
    ensures bytes { «data».new ≡ (streams_padded «data».old len new_len nb_streams).bytes }
{
    opus_defines::report_of(pad_answer(data, len, new_len, nb_streams))
}

// Reads all streams, k self-delimited ones and the last.
fn pass_all(data: &[u8], k: usize) -> Result<usize, Refusal>
    requires { length «data».now ≤ 65535 }
    ensures { verdict_by result ≡ verdict_of (repack_streams k «data».now) }
{
    let p = pass_streams(data, k);
    let Ok(at) = p else {
        return p;
    };
    let last = pass_stream(&data[at..], false);
    further_on(last, at)
}

// Where the next compact packet goes, and where the next stream to read is.
#[derive(Clone, Copy)]
pub struct Places {
    pub to: usize,
    pub from: usize,
}

// Rewrites the stream at `from`, of what ends at `len`, in compact form at `to`.
fn repack_stream(
    data: &mut [u8],
    to: usize,
    from: usize,
    len: usize,
    self_delimited: bool,
) -> Places
    requires places { (to ≤ from) × (from ≤ len) × (len ≤ length «data».old) × (len ≤ 65535) }
    requires reads { is_accepted (read self_delimited (stream «data».old from len)) ≡ true }
    ensures bytes { «data».new
        ≡ sets «data».old to (compact_of self_delimited (stream «data».old from len)) }
    ensures next { result ≡ next_places to from self_delimited (stream «data».old from len) }
{
    let mut lengths = [0u16; 48];
    let p = opus::read_into(&data[from..len], self_delimited, &mut lengths).unwrap();
    let first = from - to + p.first;
    let ns = &lengths[..p.count as usize];
    let bytes = packet_pad::compact_frames(&mut data[to..], p.toc, ns, self_delimited, first);
    Places {
        to: to + bytes,
        from: from + p.taken,
    }
}

// Rewrites all streams, which were read before.
fn repack_streams(data: &mut [u8], len: usize, k: usize) -> usize
    requires { (len ≤ length «data».old) × (len ≤ 65535) × (verdict_of (repack_streams k (take len «data».old)) ≡ Ok tt) }
    ensures bytes { «data».new ≡ sets «data».old 0 (packed_of (repack_streams k (take len «data».old))) }
    ensures next { result ≡ length (packed_of (repack_streams k (take len «data».old))) }
{
    let mut to: usize = 0;
    let mut from: usize = 0;
    for _ in 0..k {
        let places = repack_stream(data, to, from, len, true);
        to = places.to;
        from = places.from;
    }
    let last = repack_stream(data, to, from, len, false);
    last.to
}

// The packet in the first `len` bytes, with every stream in compact form. A stream's compact form always has room, since it takes no more
// bytes than the stream (`rebuilds`).
fn unpad_streams(data: &mut [u8], len: usize, streams: usize) -> Result<u16, Refusal>
    requires { (len ≤ length «data».old) × (len ≤ 65535) × (1 ≤ streams) }
    ensures report { report_of result ≡ (leaves «data».old (unpad_streams streams (take len «data».old))).report }
    ensures bytes { «data».new ≡ (leaves «data».old (unpad_streams streams (take len «data».old))).bytes }
{
    let p = pass_all(&data[..len], streams - 1);
    match p {
        Ok(_) => {
            let n = repack_streams(data, len, streams - 1);
            Ok(n as u16)
        }
        Err(e) => Err(e),
    }
}

fn unpad_answer(data: &mut [u8], len: i32, nb_streams: i32) -> Result<u16, Refusal>
    ensures report { report_of result ≡ (streams_unpadded «data».old len nb_streams).report }
    ensures bytes { «data».new ≡ (streams_unpadded «data».old len nb_streams).bytes }
{
    let streams = streams_of(nb_streams);
    if streams == 0 {
        return Err(Refusal::BadArg);
    }
    let n = length_of(data, len);
    if n == 0 {
        return Err(Refusal::BadArg);
    }
    unpad_streams(data, n, streams)
}

// Brings every stream of the multistream packet in the first `len` bytes into compact form, and answers the bytes of all.
pub fn opus_multistream_packet_unpad(data: &mut [u8], len: i32, nb_streams: i32) -> Report
    ensures report { result ≡ (streams_unpadded «data».old len nb_streams).report }
    ensures bytes { «data».new ≡ (streams_unpadded «data».old len nb_streams).bytes }
{
    opus_defines::report_of(unpad_answer(data, len, nb_streams))
}

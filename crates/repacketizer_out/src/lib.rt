// Output of a range of the frames that a collector holds (repacketizer.rs).
#![tactic(auto)]

pub mod by_number;

ghost use Rattle.std.specs.Prelude.{◌≡◌, ◌++◌, true, false, ◌+◌, ◌≤◌, pos, length, drop};
ghost use Rattle.std.proofs.lemmas.List.Edits.{sets};
ghost use Rattle.opus_defines.specs.Numbers.{number_of};
ghost use Rattle.opus_defines.specs.Outcome.{leaves};
ghost use Rattle.opus_size.specs.Size.{most_bytes};
ghost use Rattle.opus_toc.specs.Toc.{upper_six};
ghost use Rattle.opus_format.specs.Frames.{cut, total, longest};
ghost use Rattle.blocks.specs.Blocks.{part};
ghost use Rattle.opus_header.specs.Sums.{sums_of, header_of};
ghost use Rattle.collector.specs.Collector.{held, least_store, framed};
ghost use Rattle.collector.specs.Parts.{collector_of, bare};
ghost use Rattle.repacketizer_out.specs.Output.{output, out_frames, out_range, out_all};

use collector::{Head, OpusRepacketizer};
use opus_defines::{Refusal, wide};
use opus_header::{Form, Sums};

// The header of a packet and its frames, which stand in `store` from a place on: one header, one block.
fn put_packet(
    data: &mut [u8],
    toc: u8,
    ns: &[u16],
    m: Sums,
    form: Form,
    self_delimited: bool,
    store: &[u8],
    from: usize,
) -> usize
    requires measured { m ≡ sums_of ns.now }
    requires some { (1 ≤ length ns.now) × (length ns.now ≤ 48) × (longest ns.now ≤ most_bytes) }
    requires block { from + total ns.now ≤ length store.now }
    requires room { length (header_of self_delimited (upper_six toc) ns.now form) + total ns.now ≤ length «data».old }
    ensures bytes { «data».new
        ≡ sets «data».old 0
        (header_of self_delimited (upper_six toc) ns.now form ++ part store.now from (total ns.now)) }
    ensures next { result ≡ length (header_of self_delimited (upper_six toc) ns.now form) + total ns.now }
{
    let total = m.total;
    let at = opus_header::put_header(data, toc, ns, m, form, self_delimited);
    blocks::copy_into(data, at, store, from, total);
    at + total
}

// The packet of frames of lengths `ns`, which stand in `store` from a place on.
fn put_frames(
    ns: &[u16],
    toc: u8,
    store: &[u8],
    from: usize,
    data: &mut [u8],
    self_delimited: bool,
    pad: bool,
) -> Result<u16, Refusal>
    requires some { (1 ≤ length ns.now) × (length ns.now ≤ 48) × (longest ns.now ≤ most_bytes) }
    requires block { (from + total ns.now ≤ length store.now) × (length «data».old ≤ 65535) }
    ensures number { number_of result
        ≡ (leaves «data».old
        (output self_delimited pad (upper_six toc) (cut ns.now (drop from store.now)) (length «data».old))
        ).report.number }
    ensures bytes { «data».new
        ≡ (leaves «data».old
        (output self_delimited pad (upper_six toc) (cut ns.now (drop from store.now)) (length «data».old))).bytes }
{
    let m = opus_header::sums_of(ns);
    let need = opus_header::compact_bytes(ns.len(), m, self_delimited);
    let room = data.len();
    if room < need {
        return Err(Refusal::BufferTooSmall);
    }
    let form = opus_header::form_for(ns.len(), need, room, pad);
    let end = put_packet(data, toc, ns, m, form, self_delimited, store, from);
    if pad {
        blocks::fill(data, end, room - end, 0);
        return Ok(room as u16);
    }
    Ok(end as u16)
}

// The range begin..end of the frames held.
fn out_frames(
    h: Head,
    len: &[u16],
    store: &[u8],
    begin: usize,
    end: usize,
    data: &mut [u8],
    self_delimited: bool,
    pad: bool,
) -> Result<u16, Refusal>
    requires collector { (length len.now ≡ 48) × (framed (bare h len.now) ≡ true) }
    requires buffers { (least_store ≤ length store.now) × (length «data».old ≤ 65535) }
    ensures number { number_of result
        ≡ (leaves «data».old
        (out_frames self_delimited pad (upper_six h.toc) (held (bare h len.now) store.now) (pos begin) (pos end)
        (length «data».old))).report.number }
    ensures bytes { «data».new
        ≡ (leaves «data».old
        (out_frames self_delimited pad (upper_six h.toc) (held (bare h len.now) store.now) (pos begin) (pos end)
        (length «data».old))).bytes }
{
    let n = wide(h.nb_frames);
    if end <= begin {
        return Err(Refusal::BadArg);
    }
    if n < end {
        return Err(Refusal::BadArg);
    }
    let before = collector::total_16(&len[..begin]);
    put_frames(
        &len[begin..end],
        h.toc,
        store,
        wide(before),
        data,
        self_delimited,
        pad,
    )
}

// The same with range ends that may be anything, on a collector and a store that may be.
fn out_answer(
    h: Head,
    len: &[u16; 48],
    packet: &[u8; 48],
    store: &[u8],
    begin: i32,
    end: i32,
    data: &mut [u8],
    self_delimited: bool,
    pad: bool,
) -> Result<u16, Refusal>
    ensures number { number_of result
        ≡ (out_range self_delimited pad (collector_of h len.now packet.now) store.now begin end «data».old
        ).report.number }
    ensures bytes { «data».new
        ≡ (out_range self_delimited pad (collector_of h len.now packet.now)
        store.now begin end «data».old).bytes }
{
    let sound = collector::check(h, len, packet);
    let Some(_) = sound else {
        return Err(Refusal::InvalidState);
    };
    if store.len() < collector::LEAST_STORE {
        return Err(Refusal::BadArg);
    }
    if opus::MOST_PACKET < data.len() {
        return Err(Refusal::BadArg);
    }
    let Some(b) = opus_defines::count_of(begin) else {
        return Err(Refusal::BadArg);
    };
    let Some(e) = opus_defines::count_of(end) else {
        return Err(Refusal::BadArg);
    };
    out_frames(h, len, store, b, e, data, self_delimited, pad)
}

// The same as a number.
pub fn out_lent(
    h: Head,
    len: &[u16; 48],
    packet: &[u8; 48],
    store: &[u8],
    begin: i32,
    end: i32,
    data: &mut [u8],
    self_delimited: bool,
    pad: bool,
) -> i32
    ensures number { result
        ≡ (out_range self_delimited pad (collector_of h len.now packet.now) store.now begin end «data».old
        ).report.number }
    ensures bytes { «data».new
        ≡ (out_range self_delimited pad (collector_of h len.now packet.now)
        store.now begin end «data».old).bytes }
{
    opus_defines::number_of(out_answer(
        h,
        len,
        packet,
        store,
        begin,
        end,
        data,
        self_delimited,
        pad,
    ))
}

// Writes the frames begin..end as one packet in the named delimiting, which fills `data` where padding is asked for, and answers its bytes.
pub fn opus_repacketizer_out_range_impl(
    rp: OpusRepacketizer,
    store: &[u8],
    begin: i32,
    end: i32,
    data: &mut [u8],
    self_delimited: bool,
    pad: bool,
) -> i32
    ensures number { result ≡ (out_range self_delimited pad rp store.now begin end «data».old).report.number }
    ensures bytes { «data».new ≡ (out_range self_delimited pad rp store.now begin end «data».old).bytes }
{
    let h = collector::head_of(rp);
    let len = rp.len;
    let packet = rp.packet;
    out_lent(
        h,
        &len,
        &packet,
        store,
        begin,
        end,
        data,
        self_delimited,
        pad,
    )
}

// The same, ordinary and without padding.
pub fn opus_repacketizer_out_range(
    rp: OpusRepacketizer,
    store: &[u8],
    begin: i32,
    end: i32,
    data: &mut [u8],
) -> i32
    ensures number { result ≡ (out_range false false rp store.now begin end «data».old).report.number }
    ensures bytes { «data».new ≡ (out_range false false rp store.now begin end «data».old).bytes }
{
    opus_repacketizer_out_range_impl(rp, store, begin, end, data, false, false)
}

// All frames held.
pub fn opus_repacketizer_out(rp: OpusRepacketizer, store: &[u8], data: &mut [u8]) -> i32
    ensures number { result ≡ (out_all rp store.now «data».old).report.number }
    ensures bytes { «data».new ≡ (out_all rp store.now «data».old).bytes }
{
    opus_repacketizer_out_range_impl(rp, store, 0, rp.nb_frames as i32, data, false, false)
}

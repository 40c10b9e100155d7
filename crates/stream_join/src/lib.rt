// Ordinary packets joined into one multistream packet, and a stream taken out of one (document 02, M-108). All is read before the first byte is written.
#![tactic(auto)]

ghost use Rattle.std.specs.Prelude.{◌≡◌, true, false, ◌&&◌, ◌+◌, ◌*◌, ◌<◌, ◌≤◌, eqb, length};
ghost use Rattle.std.proofs.lemmas.List.Edits.{sets};
ghost use Rattle.opus_defines.specs.Numbers.{report_of};
ghost use Rattle.opus_defines.specs.Outcome.{into_room, leaves};
ghost use Rattle.opus_format.specs.Frames.{cut, total};
ghost use Rattle.opus_format.specs.Reading.{read};
ghost use Rattle.multistream.specs.Parts.{is_accepted, compact_by};
ghost use Rattle.stream_join.specs.Join.{held_by, packet_of, packets_joined, stream_taken};
ghost use Rattle.stream_join.specs.Parts.{look_by, place_of, bytes_of, and_one, ended, surveyed, packed_from, is_held, held_streams, held_streams_in};

use opus_defines::{Refusal, Report, wide};

// ---- one packet or stream

// The bytes that it takes, how long it lasts in samples at 48 kHz, and the bytes of its compact packet.
#[derive(Clone, Copy, Debug, PartialEq, Eq)]
pub struct Look {
    pub taken: usize,
    pub time: u32,
    pub bytes: usize,
}

// Reads the packet at the front of `data`, whose compact packet is to be delimited so.
fn look_at(data: &[u8], self_delimited: bool, compact_delimited: bool) -> Result<Look, Refusal>
    requires { length «data».now ≤ 65535 }
    ensures says { result ≡ look_by compact_delimited «data».now (read self_delimited «data».now) }
    ensures small { bytes_of result ≤ 65536 }
{
    let mut ns = [0u16; 48];
    let p = opus::read_into(data, self_delimited, &mut ns)?;
    let m = opus_header::sums_of(&ns[..p.count as usize]);
    let bytes = opus_header::compact_bytes(p.count as usize, m, compact_delimited);
    Ok(Look {
        taken: p.taken,
        time: opus_toc::time_48k(p.toc, p.count),
        bytes,
    })
}

// Writes the compact packet of the packet at the front of `data`, which was read before, at the front of `dst`.
fn put_stream(data: &[u8], self_delimited: bool, dst: &mut [u8], compact_delimited: bool) -> usize
    requires reads { (length «data».now ≤ 65535) × (is_accepted (read self_delimited «data».now) ≡ true) }
    requires room { length (compact_by compact_delimited «data».now (read self_delimited «data».now)) ≤ length dst.old }
    ensures bytes { dst.new
        ≡ sets dst.old 0 (compact_by compact_delimited «data».now (read self_delimited «data».now)) }
    ensures next { result ≡ length (compact_by compact_delimited «data».now (read self_delimited «data».now)) }
{
    let mut ns = [0u16; 48];
    let p = opus::read_into(data, self_delimited, &mut ns).unwrap();
    opus_header::put_compact(
        dst,
        p.toc,
        &ns[..p.count as usize],
        data,
        p.first,
        compact_delimited,
    )
}

// ---- all of them

// What is known of those so far: the first one's time, whether all last so long, and the bytes of their compact packets.
#[derive(Clone, Copy)]
pub struct Tally {
    pub time: u32,
    pub equal: bool,
    pub bytes: usize,
}

// The bytes needed, or why there are none.
#[derive(Clone, Copy, Debug, PartialEq, Eq)]
pub enum Survey {
    Needs(usize),
    Unequal,
    Stuck(Refusal),
}

fn still_equal(equal: bool, a: u32, b: u32) -> bool
    ensures { result ≡ (equal && eqb a b) }
{
    if a == b {
        return equal;
    }
    false
}

// The i-th beside those before it.
fn and_one(t: Tally, i: usize, lasts: u32, bytes: usize) -> Tally
    requires { (t.bytes ≤ i * 65536) × (i < 255) × (bytes ≤ 65536) }
    ensures { result ≡ and_one t i lasts bytes }
{
    let all = t.bytes + bytes;
    if i == 0 {
        return Tally {
            time: lasts,
            equal: true,
            bytes: all,
        };
    }
    Tally {
        time: t.time,
        equal: still_equal(t.equal, lasts, t.time),
        bytes: all,
    }
}

fn end(t: Tally) -> Survey
    ensures { result ≡ ended t }
{
    if t.equal {
        return Survey::Needs(t.bytes);
    }
    Survey::Unequal
}

// ---- joining

// The bytes of all packets.
fn sum_of(lengths: &[u16]) -> usize
    requires { length lengths.now ≤ 255 }
    ensures { result ≡ total lengths.now }
{
    let mut sum: usize = 0;
    for &n in lengths {
        sum += wide(n);
    }
    sum
}

// Reads the packets, without writing.
fn survey_packets(data: &[u8], lengths: &[u16]) -> Survey
    requires { (length lengths.now ≤ 255) × (length «data».now ≤ 65535) × (total lengths.now ≡ length «data».now) }
    ensures { result ≡ surveyed (length lengths.now) (held_by (cut lengths.now «data».now)) }
{
    let count = lengths.len();
    let mut t = Tally {
        time: 0,
        equal: true,
        bytes: 0,
    };
    let mut at: usize = 0;
    for i in 0..count {
        let next = at + wide(lengths[i]);
        let x = look_at(&data[at..next], false, i + 1 < count);
        match x {
            Ok(look) => {
                t = and_one(t, i, look.time, look.bytes);
            }
            Err(e) => {
                return Survey::Stuck(opus_defines::shift(e, at));
            }
        }
        at = next;
    }
    end(t)
}

// Writes the packets, which were read before.
fn put_packets(data: &[u8], lengths: &[u16], dst: &mut [u8])
    requires dst_len_bound { (length dst.old ≤ 65535) × (length «data».now ≤ 65535) × (total lengths.now ≡ length «data».now) }
    requires reads { is_held (held_by (cut lengths.now «data».now)) ≡ true }
    requires room { length (packed_from (length lengths.now) 0 (held_streams (held_by (cut lengths.now «data».now)))) ≤ length dst.old }
    ensures { dst.new ≡ sets dst.old 0
        (packed_from (length lengths.now) 0 (held_streams (held_by (cut lengths.now «data».now)))) }
{
    let n = lengths.len();
    let mut at: usize = 0;
    let mut to: usize = 0;
    for i in 0..n {
        let next = at + wide(lengths[i]);
        to += put_stream(&data[at..next], false, &mut dst[to..], i + 1 < n);
        at = next;
    }
}

fn join_answer(data: &[u8], lengths: &[u16], dst: &mut [u8]) -> Result<u16, Refusal>
    ensures report { report_of result ≡ (packets_joined «data».now lengths.now dst.old).report }
    ensures bytes { dst.new ≡ (packets_joined «data».now lengths.now dst.old).bytes }
{
    if lengths.len() == 0 {
        return Err(Refusal::BadArg);
    }
    if 255 < lengths.len() {
        return Err(Refusal::BadArg);
    }
    if opus::MOST_PACKET < data.len() {
        return Err(Refusal::BadArg);
    }
    if opus::MOST_PACKET < dst.len() {
        return Err(Refusal::BadArg);
    }
    if sum_of(lengths) != data.len() {
        return Err(Refusal::BadArg);
    }
    let x = survey_packets(data, lengths);
    match x {
        Survey::Needs(n) => {
            if dst.len() < n {
                return Err(Refusal::BufferTooSmall);
            }
            put_packets(data, lengths, dst);
            Ok(n as u16)
        }
        Survey::Unequal => Err(Refusal::InvalidPacket),
        Survey::Stuck(e) => Err(e),
    }
}

// Joins the packets of these lengths, which lie one behind another in `data`, at the front of `dst`: each in compact form, all but the last self-delimited.
// It answers the bytes written; -1 for no packet or more than 255, for a buffer or a destination above 65,535 bytes, or for lengths that do not sum to the
// buffer; -4 with rule and place for the first packet that cannot be read, and -4 where not all last equally long; -2.
pub fn multistream_join(data: &[u8], lengths: &[u16], dst: &mut [u8]) -> Report
    ensures report { result ≡ (packets_joined «data».now lengths.now dst.old).report }
    ensures bytes { dst.new ≡ (packets_joined «data».now lengths.now dst.old).bytes }
{
    opus_defines::report_of(join_answer(data, lengths, dst))
}

// ---- taking out

// Reads the n streams of a packet.
fn survey_streams(data: &[u8], n: usize) -> Survey
    requires { (n ≤ 255) × (length «data».now ≤ 65535) }
    ensures { result ≡ surveyed n (held_streams_in n «data».now) }
{
    let mut t = Tally {
        time: 0,
        equal: true,
        bytes: 0,
    };
    let mut at: usize = 0;
    for i in 0..n {
        let x = look_at(&data[at..], i + 1 < n, i + 1 < n);
        match x {
            Ok(look) => {
                t = and_one(t, i, look.time, look.bytes);
                at += look.taken;
            }
            Err(e) => {
                return Survey::Stuck(opus_defines::shift(e, at));
            }
        }
    }
    end(t)
}

// Where the stream behind those that were passed stands.
fn place_of(p: Result<usize, Refusal>) -> usize
    ensures { result ≡ place_of p }
{
    p.unwrap_or(0)
}

// The bytes of the compact packet.
fn bytes_of(x: Result<Look, Refusal>) -> usize
    ensures { result ≡ bytes_of x }
{
    x.map_or(0, |look| look.bytes)
}

// Takes out stream k of n, all of which were read before.
fn take_stream(data: &[u8], n: usize, k: usize, dst: &mut [u8]) -> Result<u16, Refusal>
    requires k_lt_n { (k < n) × (n ≤ 255) × (length «data».now ≤ 65535) × (length dst.old ≤ 65535) }
    requires reads { is_held (held_streams_in n «data».now) ≡ true }
    ensures report { report_of result
        ≡ (leaves dst.old (into_room (packet_of k (held_streams (held_streams_in n «data».now))) (length dst.old))).report }
    ensures bytes { dst.new
        ≡ (leaves dst.old (into_room (packet_of k (held_streams (held_streams_in n «data».now))) (length dst.old))).bytes }
{
    let at = place_of(multistream::pass_streams(data, k));
    let bytes = bytes_of(look_at(&data[at..], k + 1 < n, false));
    if dst.len() < bytes {
        return Err(Refusal::BufferTooSmall);
    }
    put_stream(&data[at..], k + 1 < n, dst, false);
    Ok(bytes as u16)
}

fn take_answer(data: &[u8], nb_streams: i32, k: i32, dst: &mut [u8]) -> Result<u16, Refusal>
    ensures report { report_of result ≡ (stream_taken «data».now nb_streams k dst.old).report }
    ensures bytes { dst.new ≡ (stream_taken «data».now nb_streams k dst.old).bytes }
{
    if opus::MOST_PACKET < data.len() {
        return Err(Refusal::BadArg);
    }
    if opus::MOST_PACKET < dst.len() {
        return Err(Refusal::BadArg);
    }
    let n = multistream::streams_of(nb_streams);
    let Some(stream) = opus_defines::count_of(k) else {
        return Err(Refusal::BadArg);
    };
    if n <= stream {
        return Err(Refusal::BadArg);
    }
    let x = survey_streams(data, n);
    match x {
        Survey::Needs(_) => take_stream(data, n, stream, dst),
        Survey::Unequal => Err(Refusal::InvalidPacket),
        Survey::Stuck(e) => Err(e),
    }
}

// Takes stream k, from 0, out of a packet of so many streams, and puts its compact ordinary packet at the front of `dst`. It answers the bytes written; -1 for
// a stream count that is not 1 to 255, for k, for a packet or a destination above 65,535 bytes; -4 and -2 as above.
pub fn multistream_take(data: &[u8], nb_streams: i32, k: i32, dst: &mut [u8]) -> Report
    ensures report { result ≡ (stream_taken «data».now nb_streams k dst.old).report }
    ensures bytes { dst.new ≡ (stream_taken «data».now nb_streams k dst.old).bytes }
{
    opus_defines::report_of(take_answer(data, nb_streams, k, dst))
}

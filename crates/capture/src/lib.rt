// Records in a capture file (document 02, M-101), and how a reader that finds none at a place seeks the next.
//
// A record is the mark 4B 9D, a line number of one byte, the packet's length in two, high byte first, and a packet of 1 to 65,535 bytes.
// It stands at a place only if all of it fits.
#![tactic(auto)]

ghost use Rattle.std.specs.Prelude.{◌≡◌, ◌<◌, ◌≤◌, length, drop};
ghost use Rattle.capture.specs.Finding.{packet_length, packet_at, record_from, next_record};

use opus_defines::{Refusal, wide_byte};

// The bytes of a record before its packet.
pub const HEAD_BYTES: usize = 5;

// What `next_record` answers: a record, and the bytes passed over before it. All zeros beside a refusal.
#[derive(Clone, Copy)]
pub struct NextRecord {
    pub verdict: Result<(), Refusal>,
    pub line: u8,
    pub place: usize,
    pub length: usize,
    pub passed: usize,
}

// The bytes of the packet of the record that stands at a place; 0 where none does.
pub fn packet_length(data: &[u8], at: usize) -> usize
    ensures { result ≡ packet_length (drop at «data».now) }
{
    if data.len() <= at {
        return 0;
    }
    let left = data.len() - at;
    if left < HEAD_BYTES {
        return 0;
    }
    if data[at] != 0x4B {
        return 0;
    }
    if data[at + 1] != 0x9D {
        return 0;
    }
    let n = 256 * wide_byte(data[at + 3]) + wide_byte(data[at + 4]);
    if left - HEAD_BYTES < n {
        return 0;
    }
    n
}

// The packet of the record that stands at a place, lent on as a part of the capture; no byte where none does.
pub fn packet_at<'a>(data: &'a [u8], at: usize) -> &'a [u8]
    ensures { result.now ≡ packet_at «data».now at }
{
    let n = packet_length(data, at);
    if n == 0 {
        return &data[0..0];
    }
    let first = at + HEAD_BYTES;
    &data[first..first + n]
}

// The place of the record that stands at a place, or else of the first one after it; the end where there is none.
#[cycle(record_at_seek_mark)]
fn record_at(data: &[u8], at: usize) -> usize
    requires { at < length «data».now }
    ensures { result ≡ (record_from «data».now at).place }
{
    if packet_length(data, at) != 0 {
        return at;
    }
    seek_mark(data, at + 1)
}

// The place of the first record at or after a place. Places where none stands are passed over in a loop, and only one where a record stands is
// handed to `record_at`, which then answers without a further call: so the calls are never nested deeper than three, whatever the bytes are.
//
// The loop asks by itself, and up to the last place that has bytes enough for a head: so a byte costs two tests, and no bound is asked twice.
#[cycle(record_at_seek_mark)]
#[tactic(auto, using(crate::proofs::Depth::seeking))]
fn seek_mark(data: &[u8], at: usize) -> usize
    requires { at ≤ length «data».now }
    ensures { result ≡ (record_from «data».now at).place }
{
    if data.len() - at < HEAD_BYTES {
        return data.len();
    }
    let last = data.len() - HEAD_BYTES;
    let mut place = at;
    while place <= last {
        if data[place] == 0x4B {
            if data[place + 1] == 0x9D {
                let n = 256 * wide_byte(data[place + 3]) + wide_byte(data[place + 4]);
                if n != 0 {
                    if place + n <= last {
                        return record_at(data, place);
                    }
                }
            }
        }
        place += 1;
    }
    data.len()
}

// The next record from a start place on; BadArg where that lies past the end. What is handed on is a place, and line and length are read there: a record
// handed on through memory costs more.
pub fn next_record(data: &[u8], start: usize) -> NextRecord
    ensures { result ≡ next_record «data».now start }
{
    if data.len() < start {
        return NextRecord {
            verdict: Err(Refusal::BadArg),
            line: 0,
            place: 0,
            length: 0,
            passed: 0,
        };
    }
    let mut place = start;
    let mut n = packet_length(data, start);
    if n == 0 {
        if start < data.len() {
            place = seek_mark(data, start + 1);
            n = packet_length(data, place);
        }
    }
    let mut line: u8 = 0;
    if n != 0 {
        line = data[place + 2];
    }
    NextRecord {
        verdict: Ok(()),
        line,
        place,
        length: n,
        passed: place - start,
    }
}

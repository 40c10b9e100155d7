// Whether a rewritten capture says what the original says, record by record: the same lines, and packets with the same frames and upper six TOC bits, or the
// very bytes, where a packet cannot be read (beyond document 02). Nothing here writes a packet: it is a second look, at what compaction wrote.
#![tactic(auto)]

ghost use Rattle.std.specs.Prelude.{◌≡◌, length, take, ℕ, ◌≤◌, true};
ghost use Rattle.capture.specs.Reading.{records_of};
ghost use Rattle.compaction.specs.Lossless.{Same};
ghost use Rattle.sameness.specs.Sameness.{Tells, Begins};

use capture::HEAD_BYTES;

// What was seen of a part: whether all its records were found the same, how many were, and the bytes of the new file that these take.
#[derive(Clone, Copy)]
pub struct Seen {
    pub all: bool,
    pub records: usize,
    pub bytes: usize,
}

// Whether two runs of bytes are the same.
fn equal_bytes(a: &[u8], b: &[u8]) -> bool
    ensures { Tells result (a.now ≡ b.now) }
{
    a == b
}

// Whether two lists of lengths are the same.
fn equal_lengths(ns: &[u16], ms: &[u16]) -> bool
    ensures { Tells result (ns.now ≡ ms.now) }
{
    ns == ms
}

// Whether two packets that are not the same bytes say the same: both must be read, and have the same frames and upper six TOC bits.
fn same_frames(p: &[u8], q: &[u8]) -> bool
    requires short { (length p.now ≤ 65535) × (length q.now ≤ 65535) }
    requires unlike { p.now ≡ q.now → ⊥ }
    ensures { Tells result (Same p.now q.now) }
{
    let mut ns = [0u16; 48];
    let mut ms = [0u16; 48];
    let first = opus::read_into(p, false, &mut ns);
    let second = opus::read_into(q, false, &mut ms);
    let Ok(a) = first else {
        return false;
    };
    let Ok(b) = second else {
        return false;
    };
    if a.toc / 4 != b.toc / 4 {
        return false;
    }
    let n = a.count as usize;
    let k = b.count as usize;
    if !equal_lengths(&ns[..n], &ms[..k]) {
        return false;
    }
    let m = opus_header::sums_of(&ns[..n]);
    let from = a.first;
    let into = b.first;
    equal_bytes(&p[from..from + m.total], &q[into..into + m.total])
}

// Whether two packets say the same. Most are the same bytes, and need not be read for it.
pub fn same_packet(p: &[u8], q: &[u8]) -> bool
    requires { (length p.now ≤ 65535) × (length q.now ≤ 65535) }
    ensures { Tells result (Same p.now q.now) }
{
    if equal_bytes(p, q) {
        return true;
    }
    same_frames(p, q)
}

// Looks for the records of a part of the original, in order, one right behind another from the front of the new file on: how many are found the same, before
// the first that is not, and whether all are.
pub fn same_records(data: &[u8], new: &[u8]) -> Seen
    ensures found { Begins (take result.records (records_of «data».now)) new.now result.bytes }
    ensures all { (result.all ≡ true → result.records ≡ length (records_of «data».now))
        × ((n : ℕ) → Begins (records_of «data».now) new.now n → result.all ≡ true) }
{
    let mut at: usize = 0;
    let mut to: usize = 0;
    let mut records: usize = 0;
    loop {
        let r = capture::next_record(data, at);
        let n = r.length;
        if n == 0 {
            return Seen {
                all: true,
                records,
                bytes: to,
            };
        }
        let place = r.place;
        let k = capture::packet_length(new, to);
        if k == 0 {
            return Seen {
                all: false,
                records,
                bytes: to,
            };
        }
        if data[place + 2] != new[to + 2] {
            return Seen {
                all: false,
                records,
                bytes: to,
            };
        }
        if !same_packet(capture::packet_at(data, place), capture::packet_at(new, to)) {
            return Seen {
                all: false,
                records,
                bytes: to,
            };
        }
        at = place + HEAD_BYTES + n;
        to += HEAD_BYTES + k;
        records += 1;
    }
}

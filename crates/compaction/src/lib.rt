// A share of compaction (document 02, M-103): the records of a capture from a place on, each with its packet in the shorter spelling, as many as a budget of
// bytes holds.
#![tactic(auto)]

ghost use Rattle.std.specs.Prelude.{◌≡◌, ◌+◌, ◌-◌, ◌≤◌, length, drop};
ghost use Rattle.std.proofs.lemmas.List.Edits.{sets};
ghost use Rattle.capture.specs.Finding.{packet_length};
ghost use Rattle.capture.specs.Reading.{readings};
ghost use Rattle.compaction.specs.Account.{output, account};
ghost use Rattle.compaction.specs.Share.{done, stop, night, accounted, share as Share·share, leaves};
ghost use Rattle.compaction.specs.Parts.{head_of, entry_at, put_of, Runs, stops_at};

use capture::HEAD_BYTES;
use opus_defines::Refusal;
use spelling::Spelling;

// Records that stay as they are are copied as one block once they are so many bytes together: few enough that what was looked at is still near when it is
// copied, and enough that a copy's start and end cost little.
const RUN_BYTES: usize = 1024;

// What a call did: the place to resume at, the records done, their bytes as written and by how many they were longer, and the bytes passed over.
#[derive(Clone, Copy, Debug, PartialEq, Eq)]
pub struct Share {
    pub resume: usize,
    pub records: usize,
    pub written: usize,
    pub reclaimed: usize,
    pub passed: usize,
}

// Records side by side that stay as they are: where they end, and how many they are.
#[derive(Clone, Copy)]
struct Run {
    end: usize,
    records: usize,
}

// The head of a record with a packet of n bytes: mark, line and length.
fn put_head(dst: &mut [u8], at: usize, line: u8, n: usize)
    requires { (at + 5 ≤ length dst.old) × (n ≤ 65535) }
    ensures { dst.new ≡ sets dst.old at (head_of line n) }
{
    dst[at] = 0x4B;
    dst[at + 1] = 0x9D;
    dst[at + 2] = line;
    dst[at + 3] = (n / 256) as u8;
    dst[at + 4] = (n % 256) as u8;
}

// Puts the record that stands at a place, with a packet of n bytes, into `dst` at `at`, its packet in the shorter spelling, and answers its bytes. Where it
// would pass the budget nothing is put, and 0 is answered.
fn put_record(
    dst: &mut [u8],
    at: usize,
    budget: usize,
    data: &[u8],
    place: usize,
    n: usize,
) -> usize
    requires room { (at ≤ budget) × (budget ≤ length dst.old) }
    requires stands { (n ≡ packet_length (drop place «data».now)) × (1 ≤ n) }
    ensures next { result ≡ length (put_of (budget - at) (entry_at «data».now place)) }
    ensures bytes { dst.new ≡ sets dst.old at (put_of (budget - at) (entry_at «data».now place)) }
{
    let left = budget - at;
    if left < HEAD_BYTES {
        return 0;
    }
    let first = at + HEAD_BYTES;
    let from = place + HEAD_BYTES;
    let s = spelling::spell(&data[from..from + n], &mut dst[first..budget]);
    let Spelling::Compact(k) = s else {
        if left - HEAD_BYTES < n {
            return 0;
        }
        blocks::copy_run(dst, at, data, place, HEAD_BYTES + n);
        return HEAD_BYTES + n;
    };
    put_head(dst, at, data[place + 2], k);
    HEAD_BYTES + k
}

// Records from a place on, one right behind another, in at most `left` bytes, whose packets are seen to stay as they are.
fn run_from(data: &[u8], at: usize, left: usize) -> Run
    requires { at ≤ length «data».now }
    ensures run { Runs «data».now at result.end result.records }
    ensures fits { (result.end - at ≤ left) × (at ≤ result.end) × (result.end ≤ length «data».now) }
{
    let mut end = at;
    let mut records: usize = 0;
    let mut n = capture::packet_length(data, end);
    while n != 0 {
        if left - (end - at) < HEAD_BYTES + n {
            return Run { end, records };
        }
        let first = end + HEAD_BYTES;
        if !spelling::stays(&data[first..first + n]) {
            return Run { end, records };
        }
        end += HEAD_BYTES + n;
        records += 1;
        if RUN_BYTES <= end - at {
            return Run { end, records };
        }
        n = capture::packet_length(data, end);
    }
    Run { end, records }
}

// A share from a place that is not past the end, into a destination that holds the budget; no record done is no refusal here.
pub fn share_from(data: &[u8], start: usize, dst: &mut [u8], budget: usize) -> Share
    requires { (start ≤ length «data».now) × (budget ≤ length dst.old) }
    ensures answer { result
        ≡ accounted (stop «data».now budget (readings «data».now start))
        (account «data».now (stop «data».now budget (readings «data».now start))
        (done «data».now budget (readings «data».now start))) }
    ensures bytes { dst.new
        ≡ sets dst.old 0 (output «data».now (done «data».now budget (readings «data».now start))) }
{
    let mut at = start;
    let mut records: usize = 0;
    let mut written: usize = 0;
    let mut passed: usize = 0;
    loop {
        let run = run_from(data, at, budget - written);
        let end = run.end;
        if run.records != 0 {
            blocks::copy_run(dst, written, data, at, end - at);
            written += end - at;
            records += run.records;
            at = end;
        } else {
            let next = capture::next_record(data, at);
            let place = next.place;
            let n = next.length;
            passed += next.passed;
            if n == 0 {
                return stopped(start, place, records, written, passed);
            }
            let k = put_record(dst, written, budget, data, place, n);
            if k == 0 {
                return stopped(start, place, records, written, passed);
            }
            written += k;
            records += 1;
            at = place + HEAD_BYTES + n;
        }
    }
}

// The share that stops at a place. What was read from the start on was written, reclaimed or passed over.
fn stopped(start: usize, place: usize, records: usize, written: usize, passed: usize) -> Share
    requires { start + written + passed ≤ place }
    ensures { result ≡ stops_at start place records written passed }
{
    Share {
        resume: place,
        records,
        written,
        reclaimed: place - start - written - passed,
        passed,
    }
}

// Rewrites the records of a capture from `start` on into `dst`, as many as `budget` bytes hold: -1 for a start past the end, -2 for a destination that is
// shorter than the budget, -21 if the next record alone exceeds the budget.
pub fn compact_share(
    data: &[u8],
    start: usize,
    dst: &mut [u8],
    budget: usize,
) -> Result<Share, Refusal>
    ensures answer { result
        ≡ Share·share «data».now (night «data».now start (length dst.old) budget) }
    ensures bytes { dst.new
        ≡ leaves «data».now dst.old (night «data».now start (length dst.old) budget) }
{
    if data.len() < start {
        return Err(Refusal::BadArg);
    }
    if dst.len() < budget {
        return Err(Refusal::BufferTooSmall);
    }
    let s = share_from(data, start, dst, budget);
    if s.records == 0 {
        if s.resume < data.len() {
            return Err(Refusal::OverBudget);
        }
    }
    Ok(s)
}

// What is counted of a capture (beyond document 02): its records, the bytes of their packets and those passed over, the verdicts on the packets (M-110), and
// the bytes that compaction would reclaim (M-103).
#![tactic(auto)]

ghost use Rattle.std.specs.Prelude.{◌≡◌, cond, ◌+◌, ◌*◌, ◌<◌, ◌≤◌, ◌^◌, length, take};
ghost use Rattle.capture.specs.Finding.{record_from};
ghost use Rattle.capture_window.specs.Window.{settled};
ghost use Rattle.capture_survey.specs.Survey.{of_record, of_passed, together, bytes_in, survey_of};

use capture::HEAD_BYTES;
use capture_window::WINDOW;
use packet_judge::Tally;

#[derive(Clone, Copy)]
pub struct Survey {
    pub records: usize,
    pub packets: usize,
    pub passed: usize,
    pub verdicts: Tally,
    pub reclaimable: usize,
}

// Nothing counted yet.
pub fn nothing() -> Survey
    ensures { result ≡ of_passed 0 }
{
    Survey {
        records: 0,
        packets: 0,
        passed: 0,
        verdicts: Tally {
            unreadable: 0,
            dirty: 0,
            longer: 0,
            clean: 0,
        },
        reclaimable: 0,
    }
}

// A record counted, with the bytes passed over before it. One reading says the verdict and the least length, which is that of the shorter spelling.
fn with_record(sum: Survey, passed: usize, packet: &[u8]) -> Survey
    requires { (bytes_in sum + 3 * (passed + 5 + length packet.now) < 2 ^ 64) × (length packet.now ≤ 65535) }
    ensures { result ≡ together sum (of_record passed packet.now) }
{
    let w = packet_judge::weigh_packet(packet, false);
    let j = w.verdict;
    Survey {
        records: sum.records + 1,
        packets: sum.packets + packet.len(),
        passed: sum.passed + passed,
        verdicts: packet_judge::tallied(j, sum.verdicts),
        reclaimable: sum.reclaimable + (packet.len() - w.least),
    }
}

// Bytes counted that are passed over.
fn with_passed(sum: Survey, passed: usize) -> Survey
    requires { sum.passed + passed < 2 ^ 64 }
    ensures { result ≡ together sum (of_passed passed) }
{
    let verdicts = sum.verdicts;
    Survey {
        records: sum.records,
        packets: sum.packets,
        passed: sum.passed + passed,
        verdicts,
        reclaimable: sum.reclaimable,
    }
}

// Where the first record at or after a place stands, and the bytes of its packet. Where there is none: the end, 0.
#[derive(Clone, Copy)]
struct Standing {
    place: usize,
    length: usize,
}

// Finds it as `capture::next_record` does, with the first byte of a mark sought by words.
fn standing_from(data: &[u8], at: usize) -> Standing
    requires { at ≤ length «data».now }
    ensures place { result.place ≡ (record_from «data».now at).place }
    ensures packet { result.length ≡ (record_from «data».now at).length }
{
    let mut place = marks::find_mark(data, at);
    while place < data.len() {
        let length = capture::packet_length(data, place);
        if length != 0 {
            return Standing { place, length };
        }
        place = marks::find_mark(data, place + 1);
    }
    Standing { place, length: 0 }
}

// What is counted so far and of the part at the front of what is held, and the bytes of that part: all at the end of the file, before as many as are settled.
#[derive(Clone, Copy)]
pub struct Surveyed {
    pub sum: Survey,
    pub bytes: usize,
}

// Counts the part at the front of what is held, behind what is counted so far. How much is settled is seen on the way, as capture_window::settled sees it.
pub fn survey_part(data: &[u8], last: bool, before: Survey) -> Surveyed
    requires { bytes_in before + 3 * length «data».now < 2 ^ 64 }
    ensures part { result.bytes ≡ cond last (length «data».now) (settled «data».now) }
    ensures sum { result.sum ≡ together before (survey_of (take result.bytes «data».now)) }
{
    let mut sum = before;
    let mut at: usize = 0;
    loop {
        let mut n = capture::packet_length(data, at);
        let mut place = at;
        let mut passed: usize = 0;
        if n == 0 {
            let r = standing_from(data, at);
            n = r.length;
            place = r.place;
            passed = place - at;
            if last {
                if n == 0 {
                    return Surveyed {
                        sum: with_passed(sum, passed),
                        bytes: data.len(),
                    };
                }
            } else if data.len() - place < WINDOW - 1 {
                let end = capture_window::short_from(data.len(), at);
                return Surveyed {
                    sum: with_passed(sum, end - at),
                    bytes: end,
                };
            }
        }
        let first = place + HEAD_BYTES;
        at = first + n;
        sum = with_record(sum, passed, &data[first..at]);
    }
}

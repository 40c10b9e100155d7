// The text of the program `captures`: a line `line place length` for each record of a capture, put into a buffer part by part.
#![tactic(auto)]

ghost use Rattle.std.specs.Prelude.{◌≡◌, ◌+◌, ◌≤◌, length};
ghost use Rattle.std.proofs.lemmas.List.Edits.{sets};
ghost use Rattle.io.specs.Counts.{IsPrefixLen};
ghost use Rattle.captures_text.specs.Lines.{most_capture, line_most, record_line, lines_in, part_from};

use capture::NextRecord;
use opus_defines::Refusal;
use show::TextBuf;

// The longest capture that is read, in bytes.
pub const MOST_CAPTURE: usize = 65536;

// The longest line: 3 digits, 5, 5, two spaces and the end.
pub const LINE_MOST: usize = 16;

// The bytes put into a buffer, and the place from which to go on.
#[derive(Clone, Copy)]
pub struct Lines {
    pub bytes: usize,
    pub next: usize,
}

#[tactic(auto, unfolding(crate::specs::Lines::record_line))]
fn put_line(out: &mut [u8], at: usize, r: NextRecord) -> usize
    requires most { length (record_line r) ≤ line_most }
    requires room { at + length (record_line r) ≤ length out.old }
    ensures bytes { out.new ≡ sets out.old at (record_line r) }
    ensures next { result ≡ at + length (record_line r) }
{
    let mut line: TextBuf<LINE_MOST> = TextBuf::new();
    line.put_decimal(r.line as usize);
    line.put_named(b" ", r.place);
    line.put_line(b" ", r.length);
    line.copy_at(out, at)
}

// The lines of the records from a place on.
#[tactic(auto, using(crate::proofs::Filled::filling))]
fn record_lines(data: &[u8], start: usize, out: &mut [u8]) -> Lines
    requires { length «data».now ≤ most_capture }
    ensures bytes { out.new
        ≡ sets out.old 0 (lines_in (length «data».now) «data».now start (length out.old)).text }
    ensures count { result.bytes
        ≡ length (lines_in (length «data».now) «data».now start (length out.old)).text }
    ensures next { result.next ≡ (lines_in (length «data».now) «data».now start (length out.old)).next }
    ensures within { result.bytes ≤ length out.old }
{
    let mut at = start;
    let mut n: usize = 0;
    while LINE_MOST <= out.len() - n {
        let r = capture::next_record(data, at);
        if r.length == 0 {
            return Lines {
                bytes: n,
                next: data.len(),
            };
        }
        at = r.place + capture::HEAD_BYTES + r.length;
        n = put_line(out, n, r);
    }
    Lines { bytes: n, next: at }
}

// Puts the lines of the records from a place on at the front of `out`, as long as the longest has room; what is too long to be read is
// the line `refused -1`.
#[tactic(auto, using(crate::proofs::Ends::ending))]
pub fn put_lines(data: &[u8], start: usize, out: &mut [u8]) -> Lines
    ensures bytes { out.new ≡ sets out.old 0 (part_from «data».now start (length out.old)).text }
    ensures count { result.bytes ≡ length (part_from «data».now start (length out.old)).text }
    ensures next { result.next ≡ (part_from «data».now start (length out.old)).next }
    ensures within { IsPrefixLen result.bytes out.new }
{
    if data.len() <= MOST_CAPTURE {
        return record_lines(data, start, out);
    }
    if out.len() < LINE_MOST {
        return Lines {
            bytes: 0,
            next: start,
        };
    }
    let mut line: TextBuf<LINE_MOST> = TextBuf::new();
    line.put_refused(opus_defines::refusal_number(Refusal::BadArg));
    let bytes = line.copy_to(out);
    Lines {
        bytes,
        next: data.len(),
    }
}

// Prints the whole text of a capture, up to a write that fails, which is told.
#[tactic(auto, using(crate::proofs::Ends::ending))]
pub fn print(data: &[u8]) {
    let mut out = [0u8; 4096];
    let mut at: usize = 0;
    while at < data.len() {
        let l = put_lines(data, at, &mut out);
        if stdio::print(&out[..l.bytes]).is_err() {
            return;
        }
        at = l.next;
    }
}

// The text of the program `judge`: a verdict for each record of a capture, then the four totals, put into a buffer part by part.
#![tactic(auto)]

ghost use Rattle.std.specs.Prelude.{◌≡◌, ◌++◌, false, ◌+◌, ◌≤◌, length};
ghost use Rattle.std.proofs.lemmas.List.Edits.{sets};
ghost use Rattle.io.specs.Counts.{IsPrefixLen};
ghost use Rattle.opus_defines.specs.declared.Refusal.{Refusal as Defines-as-Refusal};
ghost use Rattle.packet_judge.specs.Judging.{judged};
ghost use Rattle.packet_judge.specs.declared.Judged.TheVariants.{Refused};
ghost use Rattle.capture.specs.Finding.{packet_at};
ghost use Rattle.captures_text.specs.Lines.{most_capture};
ghost use Rattle.packet_judge.specs.Tallies.{sum_of};
ghost use Rattle.judge_text.specs.Text.{unreadable_line, verdict_line, totals, ending, lines_in, closed, part_from, lines_of};

use captures_text::MOST_CAPTURE;
use opus_defines::{Refusal, Rule};
use packet_judge::{Judged, Tally};
use show::TextBuf;

// The longest text that is put at once, in bytes: the four totals, with 5 digits each.
pub const PART_MOST: usize = 78;

// The bytes put into a buffer, the place from which to go on with the verdicts so far, and whether no record is left.
#[derive(Clone, Copy)]
pub struct Lines {
    pub bytes: usize,
    pub next: usize,
    pub tally: Tally,
    pub done: bool,
}

// ---- lines

fn build_unreadable<const N: usize>(line: &mut TextBuf<N>, rule: Rule, place: usize)
    requires { length line.old + length (unreadable_line rule place) ≤ N }
    ensures { line.new ≡ line.old ++ unreadable_line rule place }
{
    let number = usize::from(opus_defines::rule_number(rule));
    line.put_named(b"unreadable ", number);
    line.put_line(b" ", place);
}

// The line of a verdict. A packet of a capture is never refused.
#[tactic(auto, unfolding(crate::specs::Text::verdict_line))]
fn build_verdict<const N: usize>(line: &mut TextBuf<N>, j: Judged)
    requires judged { (e : Defines-as-Refusal) → j ≡ Refused e → ⊥ }
    requires room { length line.old + length (verdict_line j) ≤ N }
    ensures { line.new ≡ line.old ++ verdict_line j }
{
    match j {
        Judged::Refused(_) => {}
        Judged::Unreadable(rule, place) => build_unreadable(line, rule, place),
        Judged::Dirty => line.put(b"dirty\n"),
        Judged::Longer(least) => line.put_line(b"longer ", least),
        Judged::Clean => line.put(b"clean\n"),
    }
}

fn put_verdict(out: &mut [u8], at: usize, j: Judged) -> usize
    requires judged { (e : Defines-as-Refusal) → j ≡ Refused e → ⊥ }
    requires most { length (verdict_line j) ≤ 19 }
    requires room { at + length (verdict_line j) ≤ length out.old }
    ensures bytes { out.new ≡ sets out.old at (verdict_line j) }
    ensures next { result ≡ at + length (verdict_line j) }
{
    let mut line: TextBuf<19> = TextBuf::new();
    build_verdict(&mut line, j);
    line.copy_at(out, at)
}

#[tactic(auto, unfolding(crate::specs::Text::totals))]
fn build_totals<const N: usize>(lines: &mut TextBuf<N>, t: Tally)
    requires { length lines.old + length (totals t) ≤ N }
    ensures { lines.new ≡ lines.old ++ totals t }
{
    lines.put_line(b"total unreadable ", t.unreadable);
    lines.put_line(b"total dirty ", t.dirty);
    lines.put_line(b"total longer ", t.longer);
    lines.put_line(b"total clean ", t.clean);
}

// There is room for 20 digits each.
#[tactic(auto, using(crate::proofs::Line::totals_any))]
fn put_totals(out: &mut [u8], at: usize, t: Tally) -> usize
    requires { at + length (totals t) ≤ length out.old }
    ensures bytes { out.new ≡ sets out.old at (totals t) }
    ensures next { result ≡ at + length (totals t) }
{
    let mut lines: TextBuf<138> = TextBuf::new();
    build_totals(&mut lines, t);
    lines.copy_at(out, at)
}

// ---- verdicts

// The verdict on the packet of the record that stands at a place.
fn judge_at(data: &[u8], at: usize) -> Judged
    ensures { result ≡ judged false (packet_at «data».now at) }
{
    packet_judge::judge_packet(capture::packet_at(data, at), false)
}

// The lines of the records from a place on, before which there were the verdicts of `tally`.
fn record_lines(data: &[u8], start: usize, tally: Tally, out: &mut [u8]) -> Lines
    requires { (length «data».now ≤ most_capture) × (start ≤ length «data».now) × (sum_of tally ≤ start) }
    ensures bytes { out.new
        ≡ sets out.old 0 (lines_in (length «data».now) «data».now start tally (length out.old)).text }
    ensures lines { result ≡ lines_of (lines_in (length «data».now) «data».now start tally (length out.old)) }
    ensures room { result.bytes + length (ending result.done result.tally) ≤ length out.old }
{
    let mut at = start;
    let mut n: usize = 0;
    let mut t = tally;
    while PART_MOST <= out.len() - n {
        let r = capture::next_record(data, at);
        if r.length == 0 {
            return Lines {
                bytes: n,
                next: data.len(),
                tally: t,
                done: true,
            };
        }
        let place = r.place;
        at = place + capture::HEAD_BYTES + r.length;
        let j = judge_at(data, place);
        t = packet_judge::tallied(j, t);
        n = put_verdict(out, n, j);
    }
    Lines {
        bytes: n,
        next: at,
        tally: t,
        done: false,
    }
}

// The same, with the totals where no record is left.
fn put_read(data: &[u8], start: usize, tally: Tally, out: &mut [u8]) -> Lines
    requires { (length «data».now ≤ most_capture) × (start ≤ length «data».now) × (sum_of tally ≤ start) }
    ensures bytes { out.new
        ≡ sets out.old 0
        (closed (lines_in (length «data».now) «data».now start tally (length out.old))).text }
    ensures lines { result
        ≡ lines_of (closed (lines_in (length «data».now) «data».now start tally (length out.old))) }
    ensures within { result.bytes ≤ length out.old }
{
    let l = record_lines(data, start, tally, out);
    if !l.done {
        return l;
    }
    let t = l.tally;
    let bytes = put_totals(out, l.bytes, t);
    Lines {
        bytes,
        next: l.next,
        tally: t,
        done: true,
    }
}

// Puts the part of the text from a place on at the front of `out`: lines as long as there is room for the totals, and the totals where no record is left.
// What is too long to be read is the line `refused -1`.
pub fn put_part(data: &[u8], start: usize, tally: Tally, out: &mut [u8]) -> Lines
    requires { (start ≤ length «data».now) × (sum_of tally ≤ start) }
    ensures bytes { out.new
        ≡ sets out.old 0 (part_from «data».now start tally (length out.old)).text }
    ensures lines { result ≡ lines_of (part_from «data».now start tally (length out.old)) }
    ensures within { IsPrefixLen result.bytes out.new }
{
    if data.len() <= MOST_CAPTURE {
        return put_read(data, start, tally, out);
    }
    if out.len() < PART_MOST {
        return Lines {
            bytes: 0,
            next: start,
            tally,
            done: false,
        };
    }
    let mut line: TextBuf<PART_MOST> = TextBuf::new();
    line.put_refused(opus_defines::refusal_number(Refusal::BadArg));
    let bytes = line.copy_to(out);
    Lines {
        bytes,
        next: data.len(),
        tally,
        done: true,
    }
}

// Prints the whole text of a capture, up to a write that fails, which is told.
pub fn print(data: &[u8]) {
    let mut out = [0u8; 4096];
    let mut at: usize = 0;
    let mut t = Tally {
        unreadable: 0,
        dirty: 0,
        longer: 0,
        clean: 0,
    };
    'parts: loop {
        let l = put_part(data, at, t, &mut out);
        if stdio::print(&out[..l.bytes]).is_err() || l.done {
            return;
        }
        at = l.next;
        t = l.tally;
    }
}

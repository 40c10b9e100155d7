// Counts what a capture of any size on standard input holds, and says it in one line, the last word of which is `end`.
#![tactic(auto)]

ghost use Rattle.std.specs.Prelude.{◌≡◌, length};

use capture_survey::Survey;
use std::io::Stdin;

// The bytes held at most: so many that what is left of a part, less than a window, costs little to move.
const ROOM: usize = 262144;

// No more bytes than this are read: no count can wrap. Nothing says that the input ends, and a proved loop does.
const MOST: usize = 1152921504606846976;

fn count(label: &[u8], n: usize) {
    show::text(label);
    show::decimal(n);
}

fn report(s: Survey, bytes: usize) {
    count(b"bytes ", bytes);
    count(b" records ", s.records);
    count(b" packets ", s.packets);
    count(b" passed ", s.passed);
    count(b" unreadable ", s.verdicts.unreadable);
    count(b" dirty ", s.verdicts.dirty);
    count(b" longer ", s.verdicts.longer);
    count(b" clean ", s.verdicts.clean);
    count(b" reclaimable ", s.reclaimable);
    show::text(b" end\n");
}

// Why the input was not counted to its end: a read failed when so many bytes had come, or more came than are counted.
#[derive(Clone, Copy)]
enum Failure {
    Read(usize),
    TooLong,
}

// What the input holds, and its bytes.
fn survey(from: &mut Stdin, buf: &mut [u8]) -> Result<(Survey, usize), Failure>
    requires { length buf.old ≡ 262144 }
{
    let mut sum = capture_survey::nothing();
    let mut done: usize = 0;
    let mut held: usize = 0;
    while done < MOST {
        let f = match capture_parts::fill(from, buf, held) {
            Ok(filled) => filled,
            Err(failed) => return Err(Failure::Read(done + failed.held)),
        };
        let all = f.held;
        let s = capture_survey::survey_part(&buf[..all], f.last, sum);
        let n = s.bytes;
        sum = s.sum;
        done += n;
        if f.last {
            return Ok((sum, done));
        }
        held = capture_parts::keep_rest(buf, all, n);
    }
    Err(Failure::TooLong)
}

fn main(rt: HostRuntime) {
    let mut buf = [0u8; ROOM];
    match survey(&mut rt.stdin(), &mut buf) {
        Ok((sum, bytes)) => report(sum, bytes),
        Err(Failure::Read(came)) => stdio::tell_read_failed(came),
        Err(Failure::TooLong) => stdio::tell_too_long(),
    }
}

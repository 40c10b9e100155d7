// Sees whether the capture on descriptor 3 says what the one on standard input says, record by record, both of any size: the second has records one right
// behind another and nothing else. It says so in one line, the last word of which is `end`; where they differ, how many records were the same.
#![tactic(auto)]

ghost use Rattle.std.specs.Prelude.{◌≡◌, ◌≤◌, length, IfOk};
ghost use Rattle.capture.specs.Reading.{records_of};
ghost use Rattle.same.specs.Looking.{Looked};

use show::STDERR_FILENO;
use std::fs::File;
use std::io::{Error, ErrorKind, Read, Stdin};

// The bytes held at most, of each.
const ROOM: usize = 262144;

// No more bytes than this are read: no count can wrap. Nothing says that the input ends, and a proved loop does.
const MOST: usize = 1152921504606846976;

// The new capture: what descriptor 3 is open for, read from its front.
const NEW_FILE: &str = "/dev/fd/3";

// EBADF, the error of a descriptor that is not open.
const BAD_DESCRIPTOR: i32 = 9;

// The new capture where descriptor 3 is not open: every read of it fails.
#[derive(Clone, Copy)]
struct Absent;

impl Read for Absent {
    fn read(&mut self, _buf: &mut [u8]) -> Result<usize, Error> {
        Err(Error::from(ErrorKind::NotFound))
    }
}

// Why the two were not compared to their ends: a read of standard input failed when so many bytes had come, or one of the new file, or more bytes came than
// are counted.
#[derive(Clone, Copy)]
enum Failure {
    Read(usize),
    ReadNew,
    TooLong,
}

// Whether the new file says what the original says, and how many records are the same.
#[derive(Clone, Copy)]
enum Comparison {
    Same(usize),
    Differs(usize),
}

// How a part of the original was found in the new file: whether all of it is the same, the records that are, and the bytes of the new file that are held and
// not yet looked at.
#[derive(Clone, Copy)]
struct Match {
    same: bool,
    records: usize,
    held: usize,
}

// A part is never shorter than the records that are written for it, so that a full buffer, or all that is left, has them.
fn find_part<R: Read>(
    file: &mut R,
    data: &[u8],
    new: &mut [u8],
    held: usize,
) -> Result<Match, Failure>
    requires { held ≤ length new.old }
    ensures length { length new.new ≡ length new.old }
    ensures seen { IfOk result (λ m. Looked (records_of «data».now) new.new m) }
    ensures few { IfOk result (λ m. (m.held ≤ length new.old) × (m.records ≤ length «data».now)) }
{
    let Ok(n) = stdio::read_on(file, new, held) else {
        return Err(Failure::ReadNew);
    };
    let s = sameness::same_records(data, &new[..n]);
    let left = capture_parts::keep_rest(new, n, s.bytes);
    Ok(Match {
        same: s.all,
        records: s.records,
        held: left,
    })
}

// At the end of the original the new file has no byte left.
fn at_end<R: Read>(
    file: &mut R,
    new: &mut [u8],
    held: usize,
    records: usize,
) -> Result<Comparison, Failure>
    requires { held ≤ length new.old }
    ensures length { length new.new ≡ length new.old }
{
    match stdio::read_on(file, new, held) {
        Ok(0) => Ok(Comparison::Same(records)),
        Ok(_) => Ok(Comparison::Differs(records)),
        Err(_) => Err(Failure::ReadNew),
    }
}

fn compare<R: Read>(
    from: &mut Stdin,
    file: &mut R,
    buf: &mut [u8],
    new: &mut [u8],
) -> Result<Comparison, Failure>
    requires { length buf.old ≡ 262144 }
{
    let mut records: usize = 0;
    let mut done: usize = 0;
    let mut held: usize = 0;
    let mut left: usize = 0;
    while done < MOST {
        let p = match capture_parts::read_part(from, buf, held) {
            Ok(part) => part,
            Err(failed) => return Err(Failure::Read(done + failed.held)),
        };
        let n = p.bytes;
        let m = find_part(file, &buf[..n], new, left)?;
        left = m.held;
        records += m.records;
        if !m.same {
            return Ok(Comparison::Differs(records));
        }
        if p.last {
            return at_end(file, new, left, records);
        }
        done += n;
        held = capture_parts::keep_rest(buf, p.held, n);
    }
    Err(Failure::TooLong)
}

fn report(outcome: Result<Comparison, Failure>) {
    match outcome {
        Ok(Comparison::Same(records)) => {
            show::text(b"same records ");
            show::decimal(records);
            show::text(b" end\n");
        }
        Ok(Comparison::Differs(records)) => {
            show::text(b"differs record ");
            show::decimal(records);
            show::text(b"\n");
        }
        Err(Failure::Read(came)) => stdio::tell_read_failed(came),
        Err(Failure::ReadNew) => {
            io::write_all(STDERR_FILENO, b"aveluafi: reading the new file failed\n");
        }
        Err(Failure::TooLong) => stdio::tell_too_long(),
    }
}

// Standard input is closed where a read of no bytes fails for want of a descriptor. Then nothing is opened, since a file that is would be read in its place.
fn is_open(from: &mut Stdin) -> bool {
    match from.read(&mut []) {
        Ok(_) => true,
        Err(e) => e.raw_os_error() != Some(BAD_DESCRIPTOR),
    }
}

fn main(rt: HostRuntime) {
    let mut buf = [0u8; ROOM];
    let mut new = [0u8; ROOM];
    let mut from = rt.stdin();
    if is_open(&mut from) {
        if let Ok(mut file) = File::open(&rt, NEW_FILE) {
            report(compare(&mut from, &mut file, &mut buf, &mut new));
            return;
        }
    }
    report(compare(&mut from, &mut Absent, &mut buf, &mut new));
}

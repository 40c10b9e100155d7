// Compacts a capture of any size on standard input (document 02, M-103, for a file as a whole): its records, each with its packet in the shorter spelling, go
// to descriptor 3, one right behind another. A number of bytes as the first word is a budget: no record is begun that would pass it. What was done is said in
// one line on standard output, the last word of which is `end`.
#![tactic(auto)]

ghost use Rattle.std.specs.Prelude.{◌≡◌, ◌+◌, ◌<◌, ◌≤◌, ◌^◌, length, IfOk};
ghost use Rattle.compact.specs.Stream.{share_of, joined as Stream·joined, none as Stream·none};

use compaction::Share;
use show::STDERR_FILENO;
use std::env::{Env, FillError};
use std::io::Stdin;

// The bytes held at most, and those written at a time.
const ROOM: usize = 262144;

// No more bytes than this are read: no count can wrap. Nothing says that the input ends, and a proved loop does.
const MOST: usize = 1152921504606846976;

// Where the records go.
const NEW_FILE: i32 = 3;

// Why a file was not compacted: a read failed when so many bytes had come, more came than are counted, the budget has no room for one record, or a write
// failed.
#[derive(Clone, Copy)]
enum Failure {
    Read(usize),
    TooLong,
    OverBudget,
    Write,
}

fn count(label: &[u8], n: usize) {
    show::text(label);
    show::decimal(n);
}

// What was done. The bytes written, reclaimed and passed over are all that were read, up to the place at which to resume.
fn report(s: Share) {
    count(b"done records ", s.records);
    count(b" written ", s.written);
    count(b" reclaimed ", s.reclaimed);
    count(b" passed ", s.passed);
    count(b" resume ", s.resume);
    show::text(b" end\n");
}

fn tell(failure: Failure) {
    match failure {
        Failure::Read(came) => stdio::tell_read_failed(came),
        Failure::TooLong => stdio::tell_too_long(),
        Failure::OverBudget => show::text(b"refused -21\n"),
        Failure::Write => {
            io::write_all(STDERR_FILENO, b"aveluafi: writing the new file failed\n");
        }
    }
}

fn no_share() -> Share
    ensures { result ≡ Stream·none }
{
    Share {
        resume: 0,
        records: 0,
        written: 0,
        reclaimed: 0,
        passed: 0,
    }
}

// A share, and one resumed where it stopped.
fn joined(a: Share, b: Share) -> Share
    requires resume { (a.resume + b.resume < 2 ^ 64) × (a.records + b.records < 2 ^ 64) }
    requires bytes { (a.written + b.written < 2 ^ 64) × (a.reclaimed + b.reclaimed < 2 ^ 64) × (a.passed + b.passed < 2 ^ 64) }
    ensures { result ≡ Stream·joined a b }
{
    Share {
        resume: a.resume + b.resume,
        records: a.records + b.records,
        written: a.written + b.written,
        reclaimed: a.reclaimed + b.reclaimed,
        passed: a.passed + b.passed,
    }
}

// Makes the share of a part, and writes it. A part is never longer than the room, so that a budget above that holds all of it.
fn put_part(data: &[u8], budget: usize) -> Result<Share, Failure>
    requires { length «data».now ≤ 262144 }
    ensures { IfOk result (λ s. s ≡ share_of «data».now budget) }
{
    let mut out = [0u8; ROOM];
    let share = compaction::share_from(data, 0, &mut out, budget.min(ROOM));
    let n = share.written;
    if io::write_all(NEW_FILE, &out[..n]) {
        return Ok(share);
    }
    Err(Failure::Write)
}

// The share of the whole file. A budget that stops before the end has done one record at least.
fn compact(from: &mut Stdin, buf: &mut [u8], budget: usize) -> Result<Share, Failure>
    requires { length buf.old ≡ 262144 }
{
    let mut all = no_share();
    let mut left = budget;
    let mut done: usize = 0;
    let mut held: usize = 0;
    while done < MOST {
        let p = match capture_parts::read_part(from, buf, held) {
            Ok(part) => part,
            Err(failed) => return Err(Failure::Read(done + failed.held)),
        };
        let n = p.bytes;
        let s = put_part(&buf[..n], left)?;
        all = joined(all, s);
        left -= s.written;
        if s.resume < n {
            return if all.records == 0 {
                Err(Failure::OverBudget)
            } else {
                Ok(all)
            };
        }
        if p.last {
            return Ok(all);
        }
        done += n;
        held = capture_parts::keep_rest(buf, p.held, n);
    }
    Err(Failure::TooLong)
}

// The budget that the first word names; without one there is no bound, and what is not a number of at most 18 digits is none.
fn budget<R: Env>(rt: &R) -> Option<usize> {
    let mut text = [0u8; 32];
    match rt.arg(1, &mut text) {
        Ok(n) => words::decimal(&text[..n]),
        Err(FillError::NotPresent) => Some(MOST),
        Err(_) => None,
    }
}

fn main(rt: HostRuntime) {
    let Some(budget) = budget(&rt) else {
        show::text(b"refused -1\n");
        return;
    };
    let mut buf = [0u8; ROOM];
    match compact(&mut rt.stdin(), &mut buf, budget) {
        Ok(share) => report(share),
        Err(failure) => tell(failure),
    }
}

// Kinds 25 and 26 of the replay protocol: a share of compaction, and the chooser of the shorter spelling.
#![tactic(auto)]

use compaction::Share;
use opus_defines::Refusal;
use replay_io::output::Output;
use replay_io::{Malformed, Replay, room};
use std::io::Read;

// Zeros stand beside a refusal.
fn put_share(out: &mut Output, s: Result<Share, Refusal>) {
    match s {
        Ok(done) => {
            out.put(b'0');
            out.field(done.resume);
            out.field(done.records);
            out.field(done.written);
            out.field(done.reclaimed);
            out.field(done.passed);
        }
        Err(e) => {
            out.refusal(e);
            for _ in 0..5 {
                out.field(0);
            }
        }
    }
}

// Kind 25.
pub fn share<R: Read + Drop>(case: &mut Replay<R>) -> Result<(), Malformed> {
    let start = case.input.natural()?;
    let budget = case.input.natural()?;
    let size = case.input.length()?;
    let capture = case.input.bytes(&mut case.work)?;
    let lent = room(&mut case.store, size);
    let s = compaction::compact_share(capture, start, lent, budget);
    put_share(&mut case.out, s);
    case.out.put(b' ');
    case.out.buffer(lent);
    Ok(())
}

// Nothing but the packet itself is as long as the packet.
fn put_choice(out: &mut Output, packet: &[u8], shorter: &[u8]) {
    out.put(if shorter.len() == packet.len() {
        b'0'
    } else {
        b'1'
    });
    out.put(b' ');
    out.buffer(shorter);
    out.put(b' ');
}

// Kind 26.
pub fn choice<R: Read + Drop>(case: &mut Replay<R>) -> Result<(), Malformed> {
    let size = case.input.length()?;
    let packet = case.input.bytes(&mut case.work)?;
    let lent = room(&mut case.store, size);
    put_choice(&mut case.out, packet, spelling::shorter(packet, lent));
    case.out.buffer(lent);
    Ok(())
}

// Kinds 1, 7 to 12 and 24 of the replay protocol: the packet reader, length fields, the TOC byte and the judge.
#![tactic(auto)]

use opus::Packet;
use opus_defines::{Refusal, Report, Rule, refusal_report, rule_number};
use packet_judge::Judged;
use replay_io::output::Output;
use replay_io::{Malformed, Replay, room};
use std::io::Read;

// The report of a count; every one is below 65,536.
fn counted(n: usize) -> Report {
    opus_defines::report_of(Ok((n % 65536) as u16))
}

// ---- kinds 1 and 11: the packet reader

fn read_packet<R: Read + Drop>(case: &mut Replay<R>) -> Result<Result<Packet, Refusal>, Malformed> {
    let self_delimited = case.input.flag()?;
    let packet = case.input.bytes(&mut case.work)?;
    Ok(opus::opus_packet_parse_impl(packet, self_delimited))
}

// What stands behind the number of a packet; of the lengths the first `count`.
fn packet_fields(out: &mut Output, p: Packet, count: usize) {
    out.field(p.toc as usize);
    out.field(p.first);
    out.field(p.taken);
    let lengths = p.lengths;
    out.sizes(&lengths[..count.min(48)]);
}

// The same behind a refusal: zeros.
fn no_packet_fields(out: &mut Output) {
    for _ in 0..3 {
        out.field(0);
    }
    out.sizes(&[0; 48]);
}

pub fn packet<R: Read + Drop>(case: &mut Replay<R>) -> Result<(), Malformed> {
    match read_packet(case)? {
        Ok(p) => {
            case.out.decimal(p.count);
            packet_fields(&mut case.out, p, p.count);
        }
        Err(e) => case.out.refusal(e),
    }
    Ok(())
}

// With rule and place, and all of the fields also where it is a refusal.
pub fn packet_with_place<R: Read + Drop>(case: &mut Replay<R>) -> Result<(), Malformed> {
    match read_packet(case)? {
        Ok(p) => {
            case.out.report(counted(p.count));
            packet_fields(&mut case.out, p, 48);
        }
        Err(e) => {
            case.out.report(refusal_report(e));
            no_packet_fields(&mut case.out);
        }
    }
    Ok(())
}

// ---- kind 7: the length writer

pub fn write_size<R: Read + Drop>(case: &mut Replay<R>) -> Result<(), Malformed> {
    let size = case.input.i32()?;
    let n = case.input.u8()?;
    let lent = room(&mut case.work, n as usize);
    let answer = opus_size::encode_size(size, lent);
    case.out.number_and_buffer(answer, lent);
    Ok(())
}

// ---- kinds 8 and 12: the length reader

pub fn size<R: Read + Drop>(case: &mut Replay<R>) -> Result<(), Malformed> {
    let bytes = case.input.bytes(&mut case.work)?;
    match opus_size::parse_size(bytes, 4) {
        Ok(s) => {
            case.out.decimal(s.bytes);
            case.out.field(s.size as usize);
        }
        Err(e) => case.out.refusal(e),
    }
    Ok(())
}

// Told which rule asks for the length.
pub fn size_with_place<R: Read + Drop>(case: &mut Replay<R>) -> Result<(), Malformed> {
    let rule = case.input.u8()?;
    let bytes = case.input.bytes(&mut case.work)?;
    match opus_size::parse_size(bytes, rule as u16) {
        Ok(s) => {
            case.out.report(counted(s.bytes));
            case.out.field(s.size as usize);
        }
        Err(e) => {
            case.out.report(refusal_report(e));
            case.out.field(0);
        }
    }
    Ok(())
}

// ---- kinds 9 and 10: the TOC byte

pub fn frame_count<R: Read + Drop>(case: &mut Replay<R>) -> Result<(), Malformed> {
    let packet = case.input.bytes(&mut case.work)?;
    case.out.number(opus_toc::opus_packet_get_nb_frames(packet));
    Ok(())
}

pub fn samples_per_frame<R: Read + Drop>(case: &mut Replay<R>) -> Result<(), Malformed> {
    let rate = case.input.i32()?;
    let packet = case.input.bytes(&mut case.work)?;
    case.out
        .number(opus_toc::opus_packet_get_samples_per_frame(packet, rate));
    Ok(())
}

// ---- kind 24: the judge

fn unreadable(out: &mut Output, rule: Rule, place: usize) {
    out.text(b"unreadable");
    out.field(rule_number(rule) as usize);
    out.field(place);
}

pub fn verdict<R: Read + Drop>(case: &mut Replay<R>) -> Result<(), Malformed> {
    let self_delimited = case.input.flag()?;
    let packet = case.input.bytes(&mut case.work)?;
    let out = &mut case.out;
    match packet_judge::judge_packet(packet, self_delimited) {
        Judged::Refused(e) => out.refusal(e),
        Judged::Unreadable(rule, place) => unreadable(out, rule, place),
        Judged::Dirty => out.text(b"dirty"),
        Judged::Longer(least) => {
            out.text(b"longer");
            out.field(least);
        }
        Judged::Clean => out.text(b"clean"),
    }
    Ok(())
}

// Kinds 2 and 17 to 20 of the replay protocol: an empty collector, adds, and the output of a range; any collector, and adds with rule and place; the same
// with packet numbers, and the output of a packet by its number; the frames held, the output of a range, and an add.
#![tactic(auto)]

pub mod state;

ghost use Rattle.std.specs.Prelude.{◌≤◌};
ghost use Rattle.replay_io.specs.declared.TheConstants.{MOST};

use crate::state::{State, put_state, read_state};
use opus_defines::Report;
use repacketizer_out::by_number::opus_repacketizer_out_packet;
use repacketizer_out::opus_repacketizer_out_range_impl;
use replay_io::input::Input;
use replay_io::{Malformed, Replay, room};
use std::io::Read;

// ---- adds

// Adds the next packet, strictly or not.
fn add<R: Read + Drop>(
    case: &mut Replay<R>,
    s: &mut State,
    strict: bool,
) -> Result<Report, Malformed> {
    let packet = case.input.bytes(&mut case.work)?;
    Ok(s.add(packet, &mut case.store, strict))
}

// How many adds follow, and those: of the packets alone, or with a flag before each that asks for a strict add.
fn adds<R: Read + Drop>(
    case: &mut Replay<R>,
    s: &mut State,
    flagged: bool,
) -> Result<(), Malformed> {
    let n = case.input.u8()?;
    for _ in 0..n {
        let strict = flagged && case.input.flag()?;
        let r = add(case, s, strict)?;
        case.out.report(r);
        case.out.put(b' ');
    }
    Ok(())
}

// ---- the output of a range

#[derive(Clone, Copy)]
struct Range {
    self_delimited: bool,
    pad: bool,
    begin: i32,
    end: i32,
    room: usize,
    ghost within: { room ≤ MOST },
}

fn read_range<R: Read + Drop>(input: &mut Input<R>) -> Result<Range, Malformed> {
    Ok(Range {
        self_delimited: input.flag()?,
        pad: input.flag()?,
        begin: input.i32()?,
        end: input.i32()?,
        room: input.length()?,
    })
}

// Into a room of `work`.
fn out_range<R: Read + Drop>(case: &mut Replay<R>, s: &State, r: &Range) -> i32 {
    opus_repacketizer_out_range_impl(
        s.rp,
        &case.store[..s.size],
        r.begin,
        r.end,
        room(&mut case.work, r.room),
        r.self_delimited,
        r.pad,
    )
}

// ---- each kind

// Kind 2.
pub fn collect<R: Read + Drop>(case: &mut Replay<R>) -> Result<(), Malformed> {
    let range = read_range(&mut case.input)?;
    let mut s = State {
        rp: collector::opus_repacketizer_init(),
        size: collector::LEAST_STORE,
    };
    let n = case.input.u8()?;
    for _ in 0..n {
        let r = add(case, &mut s, false)?;
        case.out.number(r.number);
        case.out.put(b' ');
    }
    case.out.text(b"; ");
    case.out
        .number(collector::opus_repacketizer_get_nb_frames(s.rp));
    case.out.text(b" ; ");
    let written = out_range(case, &s, &range);
    case.out.number(written);
    case.out.text(b" ; ");
    case.out.buffer(&case.work[..range.room]);
    Ok(())
}

// Kinds 17 and 18.
fn adds_told<R: Read + Drop>(case: &mut Replay<R>, flagged: bool) -> Result<(), Malformed> {
    let mut s = read_state(case, false)?;
    adds(case, &mut s, flagged)?;
    put_state(case, &s, false);
    Ok(())
}

pub fn ordinary_adds<R: Read + Drop>(case: &mut Replay<R>) -> Result<(), Malformed> {
    adds_told(case, false)
}

pub fn flagged_adds<R: Read + Drop>(case: &mut Replay<R>) -> Result<(), Malformed> {
    adds_told(case, true)
}

// Kind 19.
pub fn packet_by_number<R: Read + Drop>(case: &mut Replay<R>) -> Result<(), Malformed> {
    let mut s = read_state(case, true)?;
    let k = case.input.i32()?;
    let n = case.input.length()?;
    adds(case, &mut s, true)?;
    put_state(case, &s, true);
    case.out.text(b" ; ");
    let lent = room(&mut case.work, n);
    let written = opus_repacketizer_out_packet(s.rp, &case.store[..s.size], k, lent);
    case.out.number_and_buffer(written, lent);
    Ok(())
}

// Kind 20.
pub fn range_and_add<R: Read + Drop>(case: &mut Replay<R>) -> Result<(), Malformed> {
    let mut s = read_state(case, true)?;
    let range = read_range(&mut case.input)?;
    case.out
        .number(collector::opus_repacketizer_get_nb_frames(s.rp));
    case.out.text(b" ; ");
    let written = out_range(case, &s, &range);
    case.out
        .number_and_buffer(written, &case.work[..range.room]);
    case.out.text(b" ; ");
    let r = add(case, &mut s, false)?;
    case.out.report(r);
    case.out.put(b' ');
    put_state(case, &s, true);
    Ok(())
}

// Kinds 27 and 28 of the replay protocol: an identification header read, and written.
#![tactic(auto)]

use opus_head::{OpusHead, zero_head};
use replay_io::input::Input;
use replay_io::output::Output;
use replay_io::{Malformed, Replay, room};
use std::io::Read;

// ---- kind 27

// The fields, each behind a space.
fn put_head(out: &mut Output, head: &OpusHead) {
    out.field(head.version as usize);
    out.field(head.channels as usize);
    out.field(head.pre_skip as usize);
    out.field(head.rate as usize);
    out.put(b' ');
    out.number(head.gain as i32);
    out.field(head.family as usize);
    out.field(head.streams as usize);
    out.field(head.coupled as usize);
    out.put(b' ');
    out.buffer(&head.mapping);
}

pub fn read<R: Read + Drop>(case: &mut Replay<R>) -> Result<(), Malformed> {
    let bytes = case.input.bytes(&mut case.work)?;
    match opus_head::head_read(bytes) {
        Ok(head) => {
            case.out.number(0);
            put_head(&mut case.out, &head);
        }
        Err(e) => {
            case.out.refusal(e);
            put_head(&mut case.out, &zero_head());
        }
    }
    Ok(())
}

// ---- kind 28

// The mapping's entries stand behind their number, and those behind them are 0.
fn read_fields<R: Read + Drop>(input: &mut Input<R>) -> Result<OpusHead, Malformed> {
    let mut head = OpusHead {
        version: input.u8()?,
        channels: input.u8()?,
        pre_skip: input.u16()?,
        rate: input.u32()?,
        gain: input.i16()?,
        family: input.u8()?,
        streams: input.u8()?,
        coupled: input.u8()?,
        mapping: [0; 255],
    };
    let n = input.u8()? as usize;
    input.read_exact(&mut head.mapping[..n])?;
    Ok(head)
}

pub fn write<R: Read + Drop>(case: &mut Replay<R>) -> Result<(), Malformed> {
    let head = read_fields(&mut case.input)?;
    let size = case.input.length()?;
    let lent = room(&mut case.store, size);
    let written = opus_head::head_write(head, lent);
    case.out.number_and_buffer(written, lent);
    Ok(())
}

// Kinds 22 and 23 of the replay protocol: packets joined into one multistream packet, and a stream taken out of one.
#![tactic(auto)]

use replay_io::input::Input;
use replay_io::{Malformed, Replay, room};
use std::io::Read;

// The most packets of a case; a call takes fewer.
const MOST_PACKETS: usize = 1024;

fn read_lengths<R: Read + Drop>(
    input: &mut Input<R>,
    lengths: &mut [u16],
) -> Result<(), Malformed> {
    for n in lengths {
        *n = input.u16()?;
    }
    Ok(())
}

// Kind 22.
pub fn join<R: Read + Drop>(case: &mut Replay<R>) -> Result<(), Malformed> {
    let size = case.input.length()?;
    let n = case.input.u16()? as usize;
    let mut lengths = [0; MOST_PACKETS];
    read_lengths(&mut case.input, &mut lengths[..n.min(MOST_PACKETS)])?;
    if MOST_PACKETS < n {
        return Err(Malformed);
    }
    let packets = case.input.bytes(&mut case.work)?;
    let lent = room(&mut case.store, size);
    let r = stream_join::multistream_join(packets, &lengths[..n], lent);
    case.out.report_and_buffer(r, lent);
    Ok(())
}

// Kind 23.
pub fn take<R: Read + Drop>(case: &mut Replay<R>) -> Result<(), Malformed> {
    let streams = case.input.i32()?;
    let k = case.input.i32()?;
    let size = case.input.length()?;
    let packet = case.input.bytes(&mut case.work)?;
    let lent = room(&mut case.store, size);
    let r = stream_join::multistream_take(packet, streams, k, lent);
    case.out.report_and_buffer(r, lent);
    Ok(())
}

// Answers cases of the replay protocol, read from standard input, through the public calls: binary in, a line of text for each case out.
// The buffers have a fixed size, however long the input is. A line is built in the output buffer, which has room for the longest, so that a
// case that turns out to be cut short can take back what it has put there.
#![tactic(auto)]

mod kind;

use crate::kind::Kind;
use replay_io::{Malformed, Replay};
use std::io::Read;
use stdio::WriteFailed;

// Answers a case, of which the kind is read, by the crate of that kind.
fn answer<R: Read + Drop>(case: &mut Replay<R>, number: u8) -> Result<(), Malformed> {
    match Kind::try_from(number)? {
        Kind::Packet => replay_reading::packet(case),
        Kind::Collect => replay_collector::collect(case),
        Kind::Pad => replay_in_place::pad(case),
        Kind::Unpad => replay_in_place::unpad(case),
        Kind::MultistreamPad => replay_in_place::multistream_pad(case),
        Kind::MultistreamUnpad => replay_in_place::multistream_unpad(case),
        Kind::WriteSize => replay_reading::write_size(case),
        Kind::Size => replay_reading::size(case),
        Kind::FrameCount => replay_reading::frame_count(case),
        Kind::SamplesPerFrame => replay_reading::samples_per_frame(case),
        Kind::PacketWithPlace => replay_reading::packet_with_place(case),
        Kind::SizeWithPlace => replay_reading::size_with_place(case),
        Kind::PadWithPlace => replay_in_place::pad_with_place(case),
        Kind::UnpadWithPlace => replay_in_place::unpad_with_place(case),
        Kind::MultistreamPadWithPlace => replay_in_place::multistream_pad_with_place(case),
        Kind::MultistreamUnpadWithPlace => replay_in_place::multistream_unpad_with_place(case),
        Kind::OrdinaryAdds => replay_collector::ordinary_adds(case),
        Kind::FlaggedAdds => replay_collector::flagged_adds(case),
        Kind::PacketByNumber => replay_collector::packet_by_number(case),
        Kind::RangeAndAdd => replay_collector::range_and_add(case),
        Kind::Orders => replay_orders::orders(case),
        Kind::Join => replay_streams::join(case),
        Kind::Take => replay_streams::take(case),
        Kind::Verdict => replay_reading::verdict(case),
        Kind::Share => replay_compaction::share(case),
        Kind::Choice => replay_compaction::choice(case),
        Kind::ReadHead => replay_heads::read(case),
        Kind::WriteHead => replay_heads::write(case),
    }
}

// Answers cases until the input ends, one is malformed, or a line cannot be written. Nothing says that the input ends, so they are counted.
fn replay<R: Read + Drop>(case: &mut Replay<R>) -> Result<(), WriteFailed> {
    for _ in 0..u64::MAX {
        let Ok(number) = case.input.u8() else {
            break;
        };
        let mark = case.out.mark();
        if answer(case, number).is_err() {
            case.out.take_back(mark);
            case.out.text(b"malformed\n");
            break;
        }
        case.out.put(b'\n');
        case.out.flush_full()?;
    }
    case.out.flush()
}

// What cannot be written is told, and a program has no exit status.
fn main(rt: HostRuntime) {
    let _ = replay(&mut Replay::new(rt.stdin()));
}

// Output of the frames that came in one packet, by its number (document 02, M-107).
ghost use Rattle.std.specs.Prelude.{◌≡◌, ◌<◌, ◌≤◌, length, take};
ghost use Rattle.repacketizer_out.specs.Numbered.{one_if, below, no_range, range_in, range_of, out_numbered};

use crate::opus_repacketizer_out_range;
use collector::OpusRepacketizer;
use opus_defines::wide;

// A range of frames, as an output takes it: 0 and 0 where there is none.
#[derive(Clone, Copy)]
pub struct Range {
    pub begin: i32,
    pub end: i32,
}

fn one_if(yes: bool) -> u8
    ensures { result ≡ one_if yes }
{
    if yes { 1 } else { 0 }
}

// How many of at most 48 numbers are below k. No test leaves the loop, so that sixteen or more are taken at a time.
fn count_below(ks: &[u8], k: u8) -> u8
    requires { length ks.now ≤ 48 }
    ensures { result ≡ below k ks.now }
{
    let mut n: u8 = 0;
    for &x in ks {
        n += one_if(x < k);
    }
    n
}

fn no_range() -> Range
    ensures { result ≡ no_range }
{
    Range { begin: 0, end: 0 }
}

// Where the frames with number k stand among the first n: those of sound numbers stand side by side, behind the frames with lower ones.
fn range_in(packet: &[u8], n: usize, k: u8) -> Range
    requires { (n ≤ length packet.now) × (n ≤ 48) × (k < 48) }
    ensures { result ≡ range_in (take n packet.now) k }
{
    let begin = count_below(&packet[..n], k);
    let end = count_below(&packet[..n], k + 1);
    Range {
        begin: begin as i32,
        end: end as i32,
    }
}

// The same for any number and count. Of numbers that are not sound it says something too, and the output refuses them.
pub fn range_of(n: u16, packet: &[u8; 48], number: i32) -> Range
    ensures { result ≡ range_of n packet.now number }
{
    let held = wide(n);
    if 48 < held {
        return no_range();
    }
    let Some(k) = opus_defines::count_of(number) else {
        return no_range();
    };
    if 48 <= k {
        return no_range();
    }
    range_in(packet, held, k as u8)
}

// Writes the frames that came in the accepted packet with this number as one packet, ordinary and without padding, and answers its bytes.
pub fn opus_repacketizer_out_packet(
    rp: OpusRepacketizer,
    store: &[u8],
    number: i32,
    data: &mut [u8],
) -> i32
    ensures number { result ≡ (out_numbered rp store.now number «data».old).report.number }
    ensures bytes { «data».new ≡ (out_numbered rp store.now number «data».old).bytes }
{
    let packet = rp.packet;
    let r = range_of(rp.nb_frames, &packet, number);
    opus_repacketizer_out_range(rp, store, r.begin, r.end, data)
}

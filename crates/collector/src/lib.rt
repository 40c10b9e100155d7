// The collector: what it is, and whether it is sound (repacketizer.rs); by value, and as a head with its lengths and numbers lent.
#![tactic(auto)]

ghost use Rattle.std.specs.Prelude.{◌≡◌, ◌%◌, ◌≤◌, length};
ghost use Rattle.opus_defines.specs.Numbers.{number_of};
ghost use Rattle.opus_format.specs.Frames.{total};
ghost use Rattle.collector.specs.Collector.{empty, sound, nb_frames_held};
ghost use Rattle.collector.specs.Parts.{head_of, collector_of, head_fits, front_of, checked_held, checked};

use opus_defines::{Refusal, wide};
use opus_toc::Samples8k;

// The least store, in bytes: 48 frames of 1275.
pub const LEAST_STORE: usize = 61200;

// Frames lie one behind another in a lent store; here are their lengths, the first packet's TOC byte and the frame size at 8 kHz, and of each frame the
// number of the accepted packet that it came in, from 0 since the collector was last empty (document 02, M-107).
#[repr(C)]
#[derive(Clone, Copy)]
pub struct OpusRepacketizer {
    pub toc: u8,
    pub nb_frames: u16,
    pub framesize: Samples8k,
    pub len: [u16; 48],
    pub packet: [u8; 48],
}

// An empty collector; a reset is the same.
pub fn opus_repacketizer_init() -> OpusRepacketizer
    ensures { result ≡ empty }
{
    OpusRepacketizer {
        toc: 0,
        nb_frames: 0,
        framesize: Samples8k(0),
        len: [0u16; 48],
        packet: [0u8; 48],
    }
}

// The sum of lengths modulo 65,536, which is the sum of those that a collector can hold: it is counted in 16 bits, so that eight lengths or more are taken
// at a time.
pub fn total_16(ns: &[u16]) -> u16
    ensures { result ≡ total ns.now % 65536 }
{
    let mut sum: u16 = 0;
    for i in 0..ns.len() {
        sum = sum.wrapping_add(ns[i]);
    }
    sum
}

// A collector without its lengths and numbers. They are lent beside it, since each struct that is passed would copy them.
#[derive(Clone, Copy)]
pub struct Head {
    pub toc: u8,
    pub nb_frames: u16,
    pub framesize: Samples8k,
}

pub fn head_of(rp: OpusRepacketizer) -> Head
    ensures { result ≡ head_of rp }
{
    let framesize = rp.framesize;
    Head {
        toc: rp.toc,
        nb_frames: rp.nb_frames,
        framesize,
    }
}

// The sum of the lengths of frames, if a sound collector can have these lengths and numbers.
fn check_held(ns: &[u16], ks: &[u8]) -> Option<usize>
    requires { (1 ≤ length ns.now) × (length ns.now ≤ 48) × (length ks.now ≡ length ns.now) }
    ensures { result ≡ checked_held ns.now ks.now }
{
    let m = packet_numbers::look(ns, ks);
    if 1 < m.wrong {
        return None;
    }
    Some(wide(m.total))
}

// Whether the frame size of a head is its TOC byte's and its frames last at most 120 ms.
fn head_fits(h: Head) -> bool
    ensures { result ≡ head_fits h }
{
    let framesize = h.framesize;
    let each = opus_toc::samples_8k(h.toc);
    if framesize.0 != each.0 {
        return false;
    }
    each.fits(h.nb_frames)
}

// What the head alone says: all that there is to say, or how many frames are to be looked at.
#[derive(Clone, Copy)]
enum Front {
    Known(Option<usize>),
    Held(usize),
}

fn front_of(h: Head) -> Front
    ensures { result ≡ front_of h }
{
    let n = wide(h.nb_frames);
    if n == 0 {
        return Front::Known(Some(0));
    }
    if !head_fits(h) {
        return Front::Known(None);
    }
    Front::Held(n)
}

// The bytes of the frames held, if the collector is sound.
pub fn check(h: Head, len: &[u16], packet: &[u8]) -> Option<usize>
    requires { (length len.now ≡ 48) × (length packet.now ≡ 48) }
    ensures { result ≡ checked (collector_of h len.now packet.now) }
{
    let f = front_of(h);
    match f {
        Front::Known(c) => c,
        Front::Held(n) => check_held(&len[..n], &packet[..n]),
    }
}

// The same by words (packet_numbers), for `add` of repacketizer, which has much to look at once many frames are held. It is called from there alone, and so
// compiled into it.
pub fn check_words(h: Head, len: &[u16; 48], packet: &[u8; 48]) -> Option<usize>
    ensures { result ≡ checked (collector_of h len.now packet.now) }
{
    let f = front_of(h);
    match f {
        Front::Known(c) => c,
        Front::Held(n) => {
            let t = packet_numbers::words::tell(len, packet, n);
            if t == packet_numbers::words::NOT_SOUND {
                return None;
            }
            Some(t)
        }
    }
}

// Whether a collector, however wild, is sound.
pub fn is_sound(rp: OpusRepacketizer) -> bool
    ensures { result ≡ sound rp }
{
    let len = rp.len;
    let packet = rp.packet;
    check(head_of(rp), &len, &packet).is_some()
}

// The frames held.
fn nb_frames_held(h: Head, len: &[u16; 48], packet: &[u8; 48]) -> Result<u16, Refusal>
    ensures { result ≡ nb_frames_held (collector_of h len.now packet.now) }
{
    let Some(_) = check(h, len, packet) else {
        return Err(Refusal::InvalidState);
    };
    Ok(h.nb_frames)
}

// The same as a number.
pub fn nb_frames(h: Head, len: &[u16; 48], packet: &[u8; 48]) -> i32
    ensures { result ≡ number_of (nb_frames_held (collector_of h len.now packet.now)) }
{
    opus_defines::number_of(nb_frames_held(h, len, packet))
}

pub fn opus_repacketizer_get_nb_frames(rp: OpusRepacketizer) -> i32
    ensures { result ≡ number_of (nb_frames_held rp) }
{
    let len = rp.len;
    let packet = rp.packet;
    nb_frames(head_of(rp), &len, &packet)
}

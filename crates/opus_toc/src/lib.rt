// The TOC byte (RFC 6716, section 3.1): samples per frame and the frame count, as opus.rs and document 01 have them.
#![tactic(auto)]

mod table;

ghost use Rattle.std.specs.Prelude.{◌≡◌, [], ◌∷◌, ◌*◌, ◌<◌, ◌≤◌, leb, get_or};
ghost use Rattle.opus_defines.specs.Numbers.{number_of};
ghost use Rattle.opus_toc.specs.Toc.{configuration, samples, time};
ghost use Rattle.opus_toc.specs.Answers.{divisor_of, samples_at, samples_per_frame, nb_frames};

use opus_defines::Refusal;

// Samples at 48 kHz: what the reader's limit of 120 ms is counted in.
#[derive(Clone, Copy)]
pub struct Samples48k(pub u16);

// Samples at 8 kHz: what the collector's limit of 120 ms is counted in.
#[repr(C)]
#[derive(Clone, Copy)]
pub struct Samples8k(pub u16);

fn place(toc: u8) -> usize
    ensures { (result ≡ toc) × (result < 256) }
{
    toc as usize
}

// By the table of document 01. A constant array is put on the stack at each use, so that this is for the public call alone.
fn samples_in_table(toc: u8) -> Samples48k
    ensures { result.0 ≡ samples 48000 (configuration toc) }
{
    let i = place(toc);
    Samples48k(table::SAMPLES_48K[i])
}

// The same by the configuration, for what is done with every packet.
pub fn samples_48k(toc: u8) -> Samples48k
    ensures { result.0 ≡ samples 48000 (configuration toc) }
{
    match toc / 8 {
        16 | 20 | 24 | 28 => Samples48k(120),
        17 | 21 | 25 | 29 => Samples48k(240),
        0 | 4 | 8 | 12 | 14 | 18 | 22 | 26 | 30 => Samples48k(480),
        2 | 6 | 10 => Samples48k(1920),
        3 | 7 | 11 => Samples48k(2880),
        _ => Samples48k(960),
    }
}

// 2.5, 5, 10 or 20 ms.
fn celt_8k(i: u8) -> Samples8k
    requires { i < 4 }
    ensures { result.0 ≡ get_or (20 ∷ 40 ∷ 80 ∷ 160 ∷ []) i 0 }
{
    match i {
        0 => Samples8k(20),
        1 => Samples8k(40),
        2 => Samples8k(80),
        _ => Samples8k(160),
    }
}

// 10, 20, 40 or 60 ms.
fn silk_8k(i: u8) -> Samples8k
    requires { i < 4 }
    ensures { result.0 ≡ get_or (80 ∷ 160 ∷ 320 ∷ 480 ∷ []) i 0 }
{
    match i {
        0 => Samples8k(80),
        1 => Samples8k(160),
        2 => Samples8k(320),
        _ => Samples8k(480),
    }
}

// At 8 kHz, for every add and output: by tests, since a long `match` weighs so much with the compiler that it makes functions of their own of what uses it.
pub fn samples_8k(toc: u8) -> Samples8k
    ensures { result.0 ≡ samples 8000 (configuration toc) }
{
    if 128 <= toc {
        return celt_8k(toc / 8 % 4);
    }
    if 96 <= toc {
        return celt_8k(toc / 8 % 2 + 2);
    }
    silk_8k(toc / 8 % 4)
}

// How long so many frames last, in samples at 48 kHz.
pub fn time_48k(toc: u8, count: u16) -> u32
    ensures { result ≡ time toc count }
{
    let each = samples_48k(toc);
    (count as u32) * (each.0 as u32)
}

impl Samples48k {
    // Whether so many frames last at most 120 ms.
    pub fn fits(self, count: u16) -> bool
        ensures { result ≡ leb (count * self.0) 5760 }
    {
        (count as u32) * (self.0 as u32) <= 5760
    }
}

impl Samples8k {
    // Whether so many frames last at most 120 ms.
    pub fn fits(self, count: u16) -> bool
        ensures { result ≡ leb (count * self.0) 960 }
    {
        (count as u32) * (self.0 as u32) <= 960
    }
}

// The samples at 48 kHz divided by this are those at the rate; 0 where it is none of the five rates.
fn divisor(rate: usize) -> u16
    ensures { result ≡ divisor_of rate }
{
    match rate {
        8000 => 6,
        12000 => 4,
        16000 => 3,
        24000 => 2,
        48000 => 1,
        _ => 0,
    }
}

// Samples per frame of a packet at a rate in Hz; BadArg for an empty packet or a rate that is none of the five.
fn samples_per_frame(data: &[u8], rate: usize) -> Result<u16, Refusal>
    ensures { result ≡ samples_at «data».now rate }
{
    if data.len() == 0 {
        return Err(Refusal::BadArg);
    }
    let d = divisor(rate);
    if d == 0 {
        return Err(Refusal::BadArg);
    }
    let each = samples_in_table(data[0]);
    Ok(each.0 / d)
}

pub fn opus_packet_get_samples_per_frame(data: &[u8], rate: i32) -> i32
    ensures { result ≡ samples_per_frame «data».now rate }
{
    let Some(hz) = opus_defines::count_of(rate) else {
        return opus_defines::refusal_number(Refusal::BadArg);
    };
    opus_defines::number_of(samples_per_frame(data, hz))
}

// How many frames the TOC byte and, for code 3, the count byte say.
pub fn nb_frames(data: &[u8]) -> Result<u16, Refusal>
    ensures { result ≡ nb_frames «data».now }
{
    if data.len() == 0 {
        return Err(Refusal::BadArg);
    }
    let code = data[0] % 4;
    if code == 0 {
        return Ok(1);
    }
    if code != 3 {
        return Ok(2);
    }
    if data.len() < 2 {
        return Err(Refusal::InvalidPacket);
    }
    Ok((data[1] % 64) as u16)
}

pub fn opus_packet_get_nb_frames(data: &[u8]) -> i32
    ensures { result ≡ number_of (nb_frames «data».now) }
{
    opus_defines::number_of(nb_frames(data))
}

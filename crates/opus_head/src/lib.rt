// The identification header of an Ogg Opus stream (RFC 7845, 5.1; document 02, M-111), read and written.
#![tactic(auto)]

ghost use Rattle.std.specs.Prelude.{◌≡◌, [], ◌∷◌, ◌+◌, ◌<◌, ◌≤◌, length, take, drop};
ghost use Rattle.std.proofs.lemmas.List.Edits.{sets};
ghost use Rattle.opus_defines.specs.Numbers.{report_of};
ghost use Rattle.opus_head.specs.Header.{letters, bits16, fixed_bytes, head_bytes};
ghost use Rattle.opus_head.specs.Reading.{channels_fit, entries_fit, streams_fit, one_stream, fields_fit, begins, bytes_needed, needed, long_as};
ghost use Rattle.opus_head.specs.Reading.{signed16, entries, head_with, plain_head, zero_head, head_of, head_read, head_write};
ghost use Rattle.opus_head.specs.Parts.{entry_fits, checked, fields_of};

use opus_defines::{Refusal, wide_byte};

// The least bytes of a header: those of family 0.
pub const LEAST_HEAD: usize = 19;

// The fields of a header. The bytes of family 0 carry no streams, coupled streams and mapping: they are what that family means.
#[repr(C)]
#[derive(Clone, Copy)]
pub struct OpusHead {
    pub version: u8,
    pub channels: u8,
    // Samples at 48 kHz, to be left out at the start.
    pub pre_skip: u16,
    // That of the recording, in Hz; for information.
    pub rate: u32,
    // In 1/256 dB.
    pub gain: i16,
    pub family: u8,
    pub streams: u8,
    pub coupled: u8,
    // An entry for each channel, then zeros.
    pub mapping: [u8; 255],
}

// ---- the rules

fn channels_fit(family: u8, channels: u8) -> bool
    ensures { result ≡ channels_fit family channels }
{
    if channels < 1 {
        return false;
    }
    if family == 0 {
        return channels <= 2;
    }
    if family == 1 {
        return channels <= 8;
    }
    true
}

fn streams_fit(streams: u8, coupled: u8) -> bool
    ensures { result ≡ streams_fit streams coupled }
{
    if streams < 1 {
        return false;
    }
    if streams < coupled {
        return false;
    }
    wide_byte(streams) + wide_byte(coupled) <= 255
}

// Whether the entry of a channel may be e: 255 or below the sum.
fn entry_fits(sum: usize, e: usize) -> bool
    ensures { result ≡ entry_fits sum e }
{
    if e == 255 {
        return true;
    }
    e < sum
}

// The entries of n channels, then zeros. Those behind the channels, nearly always most of the 255, are looked at without a way out of the loop: 16 at a time.
fn entries_fit(mapping: &[u8], n: usize, sum: usize) -> bool
    requires { n ≤ length mapping.now }
    ensures { result ≡ entries_fit n sum mapping.now }
{
    for i in 0..n {
        if !entry_fits(sum, wide_byte(mapping[i])) {
            return false;
        }
    }
    let mut fits = true;
    for i in n..mapping.len() {
        if mapping[i] != 0 {
            fits = false;
        }
    }
    fits
}

// Whether the fields are what family 0 means.
fn one_stream(channels: u8, streams: u8, coupled: u8, mapping: &[u8]) -> bool
    requires { length mapping.now ≡ 255 }
    ensures { result ≡ one_stream channels streams coupled mapping.now }
{
    if streams != 1 {
        return false;
    }
    if wide_byte(coupled) + 1 != wide_byte(channels) {
        return false;
    }
    if mapping[0] != 0 {
        return false;
    }
    mapping[1] == coupled
}

// Whether the fields obey the rules, but for the version.
fn fields_fit(channels: u8, family: u8, streams: u8, coupled: u8, mapping: &[u8]) -> bool
    requires { length mapping.now ≡ 255 }
    ensures { result ≡ fields_fit channels family streams coupled mapping.now }
{
    if !channels_fit(family, channels) {
        return false;
    }
    if !streams_fit(streams, coupled) {
        return false;
    }
    let sum = wide_byte(streams) + wide_byte(coupled);
    if !entries_fit(mapping, wide_byte(channels), sum) {
        return false;
    }
    if family != 0 {
        return true;
    }
    one_stream(channels, streams, coupled, mapping)
}

// The bytes that a header of this family and so many channels has.
fn bytes_needed(family: u8, channels: u8) -> usize
    ensures is { result ≡ bytes_needed family channels }
    ensures few { result < 277 }
{
    if family == 0 {
        return LEAST_HEAD;
    }
    21 + wide_byte(channels)
}

// ---- reading

// Whether the letters stand at the front.
fn has_letters(data: &[u8]) -> bool
    requires { 19 ≤ length «data».now }
    ensures { result ≡ begins letters «data».now }
{
    data.starts_with(b"OpusHead")
}

// 16 bits as a signed number, and back.
fn gain_of(bits: u16) -> i16
    ensures { result ≡ signed16 bits }
{
    if bits < 32768 {
        return bits as i16;
    }
    let below = (65535 - bits) as i16;
    -1 - below
}

fn bits_of(gain: i16) -> u16
    ensures { result ≡ bits16 gain }
{
    if gain < 0 {
        return 65535 - ((-1 - gain) as u16);
    }
    gain as u16
}

// The mapping that family 0 means.
fn own_places(channels: u8) -> [u8; 255]
    ensures { result ≡ entries (take channels (0 ∷ 1 ∷ [])) }
{
    let mut mapping = [0u8; 255];
    if 1 < channels {
        mapping[1] = 1;
    }
    mapping
}

// The mapping of n bytes that stands in a header of another family.
fn mapping_of(data: &[u8], n: usize) -> [u8; 255]
    requires { (n < 256) × (21 + n ≤ length «data».now) }
    ensures { result ≡ entries (take n (drop 21 «data».now)) }
{
    let mut mapping = [0u8; 255];
    blocks::copy_into(&mut mapping, 0, data, 21, n);
    mapping
}

// The fields at the front of `data`, with what the family says of streams and mapping.
fn head_mapped(data: &[u8], streams: u8, coupled: u8, mapping: [u8; 255]) -> OpusHead
    requires { 19 ≤ length «data».now }
    ensures { result ≡ head_with «data».now streams coupled mapping }
{
    let pre_skip = low_first::two_at(data, 10) as u16;
    let rate = low_first::four_at(data, 12) as u32;
    let gain = gain_of(low_first::two_at(data, 16) as u16);
    OpusHead {
        version: data[8],
        channels: data[9],
        pre_skip,
        rate,
        gain,
        family: data[18],
        streams,
        coupled,
        mapping,
    }
}

// The fields of a header of family 0.
fn plain_head(data: &[u8]) -> OpusHead
    requires { 19 ≤ length «data».now }
    ensures { result ≡ plain_head «data».now }
{
    let channels = data[9];
    let mapping = own_places(channels);
    if channels < 1 {
        return head_mapped(data, 1, 0, mapping);
    }
    head_mapped(data, 1, channels - 1, mapping)
}

// The fields of a header that is long enough for them.
fn head_of(data: &[u8]) -> OpusHead
    requires { (19 ≤ length «data».now) × (needed «data».now ≤ length «data».now) }
    ensures { result ≡ head_of «data».now }
{
    if data[18] == 0 {
        return plain_head(data);
    }
    let mapping = mapping_of(data, wide_byte(data[9]));
    head_mapped(data, data[19], data[20], mapping)
}

// All zeros: what C sees beside a refusal.
pub fn zero_head() -> OpusHead
    ensures { result ≡ zero_head }
{
    OpusHead {
        version: 0,
        channels: 0,
        pre_skip: 0,
        rate: 0,
        gain: 0,
        family: 0,
        streams: 0,
        coupled: 0,
        mapping: [0u8; 255],
    }
}

// The fields where they obey the rules.
fn checked_head(head: OpusHead) -> Result<OpusHead, Refusal>
    ensures { result ≡ checked head }
{
    let mapping = head.mapping;
    if fields_fit(
        head.channels,
        head.family,
        head.streams,
        head.coupled,
        &mapping,
    ) {
        return Ok(head);
    }
    Err(Refusal::BadField)
}

// Version 1 has just the bytes that it needs, the others may have more.
fn long_as(version: u8, n: usize, need: usize) -> bool
    ensures { result ≡ long_as version n need }
{
    if version == 1 {
        return n == need;
    }
    need <= n
}

// Reads the header at the front of `data`. Refusals, in order: -22 under 19 bytes or other letters, -23 for a version above 15, -22 for another length than the
// fields need (versions other than 1 may be longer), -24 for a field against the rules.
pub fn head_read(data: &[u8]) -> Result<OpusHead, Refusal>
    ensures { result ≡ head_read «data».now }
{
    if data.len() < LEAST_HEAD {
        return Err(Refusal::BadHeader);
    }
    if !has_letters(data) {
        return Err(Refusal::BadHeader);
    }
    if 15 < data[8] {
        return Err(Refusal::UnknownVersion);
    }
    let need = bytes_needed(data[18], data[9]);
    if !long_as(data[8], data.len(), need) {
        return Err(Refusal::BadHeader);
    }
    checked_head(head_of(data))
}

// ---- writing

// The bytes that every header has.
fn fixed_bytes(
    version: u8,
    channels: u8,
    pre_skip: u16,
    rate: u32,
    gain: i16,
    family: u8,
) -> [u8; 19]
    ensures { result ≡ fixed_bytes version channels pre_skip rate gain family }
{
    let bits = bits_of(gain);
    [
        0x4F,
        0x70,
        0x75,
        0x73,
        0x48,
        0x65,
        0x61,
        0x64,
        version,
        channels,
        (pre_skip % 256) as u8,
        (pre_skip / 256 % 256) as u8,
        (rate % 256) as u8,
        (rate / 256 % 256) as u8,
        (rate / 256 / 256 % 256) as u8,
        (rate / 256 / 256 / 256 % 256) as u8,
        (bits % 256) as u8,
        (bits / 256 % 256) as u8,
        family,
    ]
}

// Streams, coupled streams and the entries of n channels, behind them.
fn put_table(dst: &mut [u8], streams: u8, coupled: u8, mapping: &[u8], n: usize)
    requires { (21 + n ≤ length dst.old) × (n ≤ length mapping.now) }
    ensures { dst.new ≡ sets dst.old 19 (streams ∷ coupled ∷ take n mapping.now) }
{
    dst[19] = streams;
    dst[20] = coupled;
    blocks::copy_into(dst, 21, mapping, 0, n);
}

// A header of these fields at the front of `dst`.
fn put_head(
    version: u8,
    channels: u8,
    pre_skip: u16,
    rate: u32,
    gain: i16,
    family: u8,
    streams: u8,
    coupled: u8,
    mapping: &[u8],
    dst: &mut [u8],
)
    requires { (length mapping.now ≡ 255) × (bytes_needed family channels ≤ length dst.old) }
    ensures { dst.new ≡ sets dst.old 0 (head_bytes (fields_of version channels pre_skip rate gain family streams
        coupled mapping.now)) }
{
    let fixed = fixed_bytes(version, channels, pre_skip, rate, gain, family);
    blocks::copy_into(dst, 0, &fixed, 0, 19);
    if family != 0 {
        put_table(dst, streams, coupled, mapping, wide_byte(channels));
    }
}

fn write_answer(
    version: u8,
    channels: u8,
    pre_skip: u16,
    rate: u32,
    gain: i16,
    family: u8,
    streams: u8,
    coupled: u8,
    mapping: &[u8],
    dst: &mut [u8],
) -> Result<u16, Refusal>
    requires { length mapping.now ≡ 255 }
    ensures says { report_of result
        ≡ (head_write (fields_of version channels pre_skip rate gain family streams coupled mapping.now) dst.old).report }
    ensures bytes { dst.new
        ≡ (head_write (fields_of version channels pre_skip rate gain family streams coupled mapping.now) dst.old).bytes }
{
    if version != 1 {
        return Err(Refusal::BadField);
    }
    if !fields_fit(channels, family, streams, coupled, mapping) {
        return Err(Refusal::BadField);
    }
    let need = bytes_needed(family, channels);
    if dst.len() < need {
        return Err(Refusal::BufferTooSmall);
    }
    put_head(
        version, channels, pre_skip, rate, gain, family, streams, coupled, mapping, dst,
    );
    Ok(need as u16)
}

// Writes a header of these fields at the front of `dst`, and answers its bytes. Refusals, in order: -24 for a version other than 1, a field against the
// rules, an entry behind the last channel's that is not 0, or fields of family 0 other than it means; -2.
fn write_fields(
    version: u8,
    channels: u8,
    pre_skip: u16,
    rate: u32,
    gain: i16,
    family: u8,
    streams: u8,
    coupled: u8,
    mapping: &[u8],
    dst: &mut [u8],
) -> i32
    requires { length mapping.now ≡ 255 }
    ensures number { result ≡ (head_write (record {
      version = version;
      channels = channels;
      pre_skip = pre_skip;
      rate = rate;
      gain = gain;
      family = family;
      streams = streams;
      coupled = coupled;
      mapping = mapping.now;
    }) dst.old).report.number }
    ensures bytes { dst.new ≡ (head_write (record {
      version = version;
      channels = channels;
      pre_skip = pre_skip;
      rate = rate;
      gain = gain;
      family = family;
      streams = streams;
      coupled = coupled;
      mapping = mapping.now;
    }) dst.old).bytes }
{
    opus_defines::number_of(write_answer(
        version, channels, pre_skip, rate, gain, family, streams, coupled, mapping, dst,
    ))
}

// The same of fields by value.
pub fn head_write(head: OpusHead, dst: &mut [u8]) -> i32
    ensures number { result ≡ (head_write head dst.old).report.number }
    ensures bytes { dst.new ≡ (head_write head dst.old).bytes }
{
    let mapping = head.mapping;
    write_fields(
        head.version,
        head.channels,
        head.pre_skip,
        head.rate,
        head.gain,
        head.family,
        head.streams,
        head.coupled,
        &mapping,
        dst,
    )
}

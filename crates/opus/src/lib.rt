// The packet reader in both delimitings (RFC 6716, sections 3.2 to 3.4 and appendix B): `opus_packet_parse_impl` and
// `opus_packet_parse` of opus.rs. A packet's frames lie one behind another, so the answer has their lengths and the first one's place.
#![tactic(auto)]

pub mod code_3;
pub mod own;

ghost use Rattle.std.specs.Prelude.{◌≡◌, Err, false, [], ◌+◌, ◌-◌, ◌/◌, ◌%◌, ◌<◌, ◌≤◌, length, get_or, drop};
ghost use Rattle.opus_format.specs.Frames.{padded48};
ghost use Rattle.opus_toc.specs.Toc.{code};
ghost use Rattle.opus_defines.specs.Rules.{rule_refusal};
ghost use Rattle.opus_defines.specs.declared.Rule.TheVariants.{R4, R7};
ghost use Rattle.opus_format.specs.Reading.{size_rule, pointed, unequal, accept, read_padding, behind_padding, read3, read};
ghost use Rattle.opus.specs.Answers.{packet_of, parsed, answer_of, short_of, short_at};
ghost use Rattle.opus_parts.specs.Parts.{end_of};
ghost use Rattle.opus.specs.Heads.{head_at};

use opus_defines::{Refusal, Rule, wide};
use opus_parts::frames_at::{Broken, equal_frames, last_frame};
use opus_parts::padding_at::read_padding;
use opus_parts::sizes_at::read_sizes;

// The longest packet, in bytes.
pub const MOST_PACKET: usize = 65535;

// What the reader answers of a packet that it reads.
#[derive(Clone, Copy)]
pub struct Packet {
    pub toc: u8,
    pub count: usize,
    pub lengths: [u16; 48],
    // The place of the first frame, and the bytes taken with padding.
    pub first: usize,
    pub taken: usize,
}

// The same beside the lengths, which are lent. The count has 16 bits: before a `usize` the TOC byte would have seven bytes behind it that hold nothing, which
// no register holds either, and each part of the reader would copy them through memory (docs/PERFORMANCE.md).
#[derive(Clone, Copy)]
pub struct PacketHead {
    pub toc: u8,
    pub count: u16,
    pub first: usize,
    pub taken: usize,
}

// A packet that breaks a rule at a place.
fn broken_head(rule: Rule, place: usize) -> Result<PacketHead, Refusal>
    requires { place < 65536 }
    ensures { result ≡ Err (rule_refusal rule place) }
{
    Err(opus_defines::rule_refusal(rule, place))
}

// The place that a broken rule names: rule 3 points at the TOC byte.
fn pointed_place(rule: Rule, place: usize) -> usize
    ensures { (result ≡ pointed rule place) × (result ≤ place) }
{
    match rule {
        Rule::R3 => 0,
        _ => place,
    }
}

// R6 for equal lengths, R7 for unequal ones, by the count byte's flag.
fn size_rule(count_byte: u8) -> Rule
    ensures { result ≡ size_rule (count_byte / 128 % 2) }
{
    if count_byte / 128 % 2 == 0 {
        return Rule::R6;
    }
    Rule::R7
}

// The packet of frames that were read at a place.
fn packet_at(
    toc: u8,
    count: u16,
    at: usize,
    pad: usize,
    f: Result<(usize, usize), Broken>,
) -> Result<PacketHead, Refusal>
    requires { at + end_of f + pad ≤ 65535 }
    ensures { result ≡ head_at toc count at pad f }
{
    match f {
        Err((rule, place)) => broken_head(rule, pointed_place(rule, at + place)),
        Ok((offset, total)) => {
            let first = at + offset;
            Ok(PacketHead {
                toc,
                count,
                first,
                taken: first + total + pad,
            })
        }
    }
}

// The packet of frames that were read right behind the TOC byte.
fn behind_toc(toc: u8, count: u16, f: Result<(usize, usize), Broken>) -> Result<PacketHead, Refusal>
    requires { 1 + end_of f ≤ 65535 }
    ensures { result ≡ head_at toc count 1 0 f }
{
    packet_at(toc, count, 1, 0, f)
}

// The packet of code 3 with its flag for unequal lengths, whose frames stand in s from place `at` of the packet on.
fn unequal_3(
    s: &[u8],
    toc: u8,
    count: usize,
    at: usize,
    pad: usize,
    self_delimited: bool,
    lengths: &mut [u16; 48],
) -> Result<PacketHead, Refusal>
    requires le_count { (1 ≤ count) × (count ≤ 48) × (at + length s.now + pad ≤ 65535) }
    requires zeros { lengths.old ≡ padded48 [] }
    ensures { answer_of result lengths.new
        ≡ packet_of (accept (at + length s.now + pad) toc pad (unequal self_delimited R7 (count - 1) s.now)) }
{
    let k = count - 1;
    let f = read_sizes(s, k, lengths);
    match f {
        Err(place) => broken_head(Rule::R7, at + place),
        Ok((next, sum)) => packet_at(
            toc,
            count as u16,
            at,
            pad,
            last_frame(s, next, sum, k, self_delimited, lengths),
        ),
    }
}

// The packet of code 3 behind its count byte: padding lengths, then frames up to the padding.
fn read_body(
    data: &[u8],
    count: usize,
    self_delimited: bool,
    lengths: &mut [u16; 48],
) -> Result<PacketHead, Refusal>
    requires in_bounds { (2 ≤ length «data».now) × (length «data».now ≤ 65535) × (1 ≤ count) × (count ≤ 48) }
    requires zeros { lengths.old ≡ padded48 [] }
    ensures { answer_of result lengths.new
        ≡ packet_of (behind_padding self_delimited (length «data».now) (get_or «data».now 0 0)
        (get_or «data».now 1 0 / 128 % 2) count (read_padding (get_or «data».now 1 0 / 64 % 2) (drop 2 «data».now))) }
{
    let count_byte = data[1];
    let tail = &data[2..];
    let padding = read_padding(tail, count_byte);
    let Some((pad, next)) = padding else {
        return broken_head(size_rule(count_byte), 2);
    };
    let at = 2 + next;
    let end = data.len() - pad;
    let s = &data[at..end];
    if count_byte / 128 % 2 == 0 {
        let f = equal_frames(s, count, Rule::R6, self_delimited, lengths);
        return packet_at(data[0], count as u16, at, pad, f);
    }
    unequal_3(s, data[0], count, at, pad, self_delimited, lengths)
}

// A packet of code 3: its count byte is there, and its frames last at most 120 ms.
fn read_3(data: &[u8], self_delimited: bool, lengths: &mut [u16; 48]) -> Result<PacketHead, Refusal>
    requires in_bounds { (1 ≤ length «data».now) × (length «data».now ≤ 65535) }
    requires zeros { lengths.old ≡ padded48 [] }
    ensures { answer_of result lengths.new
        ≡ packet_of (read3 self_delimited (length «data».now) (get_or «data».now 0 0) (drop 1 «data».now)) }
{
    if data.len() < 2 {
        return broken_head(Rule::R5, 1);
    }
    let count = data[1] % 64;
    if count == 0 {
        return broken_head(Rule::R5, 1);
    }
    let each = opus_toc::samples_48k(data[0]);
    if !each.fits(count as u16) {
        return broken_head(Rule::R5, 1);
    }
    read_body(data, count as usize, self_delimited, lengths)
}

// A packet of code 2: the first frame says its length, and the second takes the rest or says its own. `read_sizes` would serve, but with a second caller it is
// no longer compiled into the reader of code 3.
fn read_2(data: &[u8], self_delimited: bool, lengths: &mut [u16; 48]) -> Result<PacketHead, Refusal>
    requires in_bounds { (1 ≤ length «data».now) × (length «data».now ≤ 65535) }
    requires zeros { lengths.old ≡ padded48 [] }
    ensures { answer_of result lengths.new
        ≡ packet_of (accept (length «data».now) (get_or «data».now 0 0) 0
        (unequal self_delimited R4 1 (drop 1 «data».now))) }
{
    let body = &data[1..];
    let size = opus_size::size_at(body, 0);
    let Some((n, next)) = size else {
        return broken_head(Rule::R4, 1);
    };
    let sum = wide(n);
    if body.len() - next < sum {
        return broken_head(Rule::R4, 1);
    }
    lengths[0] = n;
    behind_toc(
        data[0],
        2,
        last_frame(body, next, sum, 1, self_delimited, lengths),
    )
}

// A packet of at least one byte and not too long. Code 3 is asked for first: most packets that come here have it.
pub fn read_packet(
    data: &[u8],
    self_delimited: bool,
    lengths: &mut [u16; 48],
) -> Result<PacketHead, Refusal>
    requires in_bounds { (1 ≤ length «data».now) × (length «data».now ≤ 65535) }
    requires zeros { lengths.old ≡ padded48 [] }
    ensures { answer_of result lengths.new ≡ packet_of (read self_delimited «data».now) }
{
    let toc = data[0];
    let code = toc % 4;
    if code == 3 {
        return read_3(data, self_delimited, lengths);
    }
    let body = &data[1..];
    match code {
        0 => behind_toc(toc, 1, last_frame(body, 0, 0, 0, self_delimited, lengths)),
        1 => behind_toc(
            toc,
            2,
            equal_frames(body, 2, Rule::R3, self_delimited, lengths),
        ),
        _ => read_2(data, self_delimited, lengths),
    }
}

// A packet of one or two frames: their lengths, and the place of the first; or the rule that is broken and where. `Counted` is code 3, which
// `read_into` reads.
#[derive(Clone, Copy, Debug, PartialEq, Eq)]
pub enum Short {
    One(u16, usize),
    Two(u16, u16, usize),
    Broken(Rule, usize),
    Counted,
}

// Code 0: the frame takes the rest.
fn one_frame(data: &[u8]) -> Short
    requires { (1 ≤ length «data».now) × (code (get_or «data».now 0 0) ≡ 0) }
    ensures { result ≡ short_of (read false «data».now) }
{
    let rest = data.len() - 1;
    if opus_size::MOST_BYTES < rest {
        return Short::Broken(Rule::R2, 1);
    }
    Short::One(rest as u16, 1)
}

// Code 1: the frames share the rest.
fn two_equal(data: &[u8]) -> Short
    requires { (1 ≤ length «data».now) × (code (get_or «data».now 0 0) ≡ 1) }
    ensures { result ≡ short_of (read false «data».now) }
{
    let rest = data.len() - 1;
    if rest % 2 != 0 {
        return Short::Broken(Rule::R3, 0);
    }
    let each = rest / 2;
    if opus_size::MOST_BYTES < each {
        return Short::Broken(Rule::R2, 1);
    }
    Short::Two(each as u16, each as u16, 1)
}

// Code 2: the first frame says its length, and the second takes the rest.
fn two_unequal(data: &[u8]) -> Short
    requires { (1 ≤ length «data».now) × (code (get_or «data».now 0 0) ≡ 2) }
    ensures { result ≡ short_of (read false «data».now) }
{
    let size = opus_size::size_at(data, 1);
    let Some((n, first)) = size else {
        return Short::Broken(Rule::R4, 1);
    };
    let left = data.len() - first;
    let one = wide(n);
    if left < one {
        return Short::Broken(Rule::R4, 1);
    }
    let last = left - one;
    if opus_size::MOST_BYTES < last {
        return Short::Broken(Rule::R2, first);
    }
    Short::Two(n, last as u16, first)
}

// Reads an ordinary packet of code 0, 1 or 2 without an array for its lengths, which costs more than the reading itself. The code is told bit by bit: of
// a `match` a table of jumps would be made.
pub fn short_at(data: &[u8]) -> Short
    ensures { result ≡ short_at false «data».now }
{
    if data.len() == 0 {
        return Short::Broken(Rule::R1, 0);
    }
    let toc = data[0];
    if toc / 2 % 2 == 0 {
        if toc % 2 == 0 {
            return one_frame(data);
        }
        return two_equal(data);
    }
    if toc % 2 == 0 {
        return two_unequal(data);
    }
    Short::Counted
}

// Reads the packet at the front of `data`, and puts the lengths of its frames into `lengths`, which come as zeros. Beside a refusal
// nothing is said of them.
pub fn read_into(
    data: &[u8],
    self_delimited: bool,
    lengths: &mut [u16; 48],
) -> Result<PacketHead, Refusal>
    requires { lengths.old ≡ padded48 [] }
    ensures { answer_of result lengths.new ≡ parsed self_delimited «data».now }
{
    if MOST_PACKET < data.len() {
        return Err(Refusal::BadArg);
    }
    if data.len() == 0 {
        return broken_head(Rule::R1, 0);
    }
    read_packet(data, self_delimited, lengths)
}

// Reads the packet at the front of `data`, which in the ordinary form is all of it.
pub fn opus_packet_parse_impl(data: &[u8], self_delimited: bool) -> Result<Packet, Refusal>
    ensures { result ≡ parsed self_delimited «data».now }
{
    let mut lengths = [0u16; 48];
    let h = read_into(data, self_delimited, &mut lengths)?;
    Ok(Packet {
        toc: h.toc,
        count: h.count as usize,
        lengths,
        first: h.first,
        taken: h.taken,
    })
}

// Reads an ordinary packet.
pub fn opus_packet_parse(data: &[u8]) -> Result<Packet, Refusal>
    ensures { result ≡ parsed false «data».now }
{
    opus_packet_parse_impl(data, false)
}

// Length fields, the TOC byte and the packet reader, exported.
ghost use Rattle.std.specs.Prelude.{◌≡◌, false, ◌<◌, ◌≤◌, Err, IfOk};
ghost use Rattle.opus_defines.specs.Numbers.{number_of};
ghost use Rattle.opus_size.specs.Answers.{encode_size, parse_size};
ghost use Rattle.opus_toc.specs.Answers.{samples_per_frame, nb_frames};
ghost use Rattle.opus.specs.Answers.{parsed};
ghost use Rattle.aveluafi.specs.Records.{size_record, packet_record, whole_record};

use opus::code_3::Equal;
use opus::{PacketHead, Short};
use opus_defines::{Refusal, Report};
use opus_size::Size;

// The two records of reading. The header has the report's three fields, number, rule and place, as the record's own: they lie alike. Here they are one
// value, which is kept in one register.

// A length that was read; 0 beside a refusal.
#[repr(C)]
#[derive(Clone, Copy)]
pub struct AveluafiSize {
    // The bytes of its field, or the refusal, with the rule that was told where the field is cut short.
    pub report: Report,
    pub size: u16,
}

// A packet that was read; all zeros beside the report of a refusal.
#[repr(C)]
#[derive(Clone, Copy)]
pub struct AveluafiPacket {
    // The frames, or the refusal, with rule and place where the packet breaks a rule.
    pub report: Report,
    // No byte is left free between these and the report: it would be copied with them.
    pub lengths: [u16; 48],
    pub toc: u8,
    // The place of the first frame, and the bytes taken with padding.
    pub payload_offset: usize,
    pub packet_offset: usize,
}

#[unsafe(no_mangle)]
pub extern "C" fn aveluafi_encode_size(size: i32, data: &mut [u8]) -> i32
    ensures number { result ≡ (encode_size size «data».old).report.number }
    ensures bytes { «data».new ≡ (encode_size size «data».old).bytes }
{
    opus_size::encode_size(size, data)
}

fn size_record(s: Result<Size, Refusal>) -> AveluafiSize
    requires { IfOk s (λ x. x.bytes ≤ 2) }
    ensures { result ≡ size_record s }
{
    match s {
        Ok(x) => AveluafiSize {
            report: opus_defines::report_of(Ok(x.bytes as u16)),
            size: x.size,
        },
        Err(e) => AveluafiSize {
            report: opus_defines::refusal_report(e),
            size: 0,
        },
    }
}

// Told the rule that asks for the length.
#[unsafe(no_mangle)]
pub extern "C" fn aveluafi_parse_size(data: &[u8], rule: u16) -> AveluafiSize
    ensures { result ≡ size_record (parse_size rule «data».now) }
{
    size_record(opus_size::parse_size(data, rule))
}

#[unsafe(no_mangle)]
pub extern "C" fn aveluafi_packet_get_samples_per_frame(data: &[u8], rate: i32) -> i32
    ensures { result ≡ samples_per_frame «data».now rate }
{
    opus_toc::opus_packet_get_samples_per_frame(data, rate)
}

#[unsafe(no_mangle)]
pub extern "C" fn aveluafi_packet_get_nb_frames(data: &[u8]) -> i32
    ensures { result ≡ number_of (nb_frames «data».now) }
{
    opus_toc::opus_packet_get_nb_frames(data)
}

// Zeros beside a refusal's report.
fn no_packet(e: Refusal) -> AveluafiPacket
    ensures { result ≡ packet_record (Err e) }
{
    let r = opus_defines::refusal_report(e);
    AveluafiPacket {
        report: r,
        lengths: [0u16; 48],
        toc: 0,
        payload_offset: 0,
        packet_offset: 0,
    }
}

// A packet whose lengths are these.
fn whole_packet(p: PacketHead, lengths: [u16; 48]) -> AveluafiPacket
    ensures { result ≡ whole_record p lengths }
{
    AveluafiPacket {
        report: opus_defines::report_of(Ok(p.count)),
        lengths,
        toc: p.toc,
        payload_offset: p.first,
        packet_offset: p.taken,
    }
}

// The packet in the named delimiting. A self-delimited one of code 0, 1 or 2 is read without an array; the ordinary form has the call below.
#[unsafe(no_mangle)]
pub extern "C" fn aveluafi_packet_parse_impl(data: &[u8], self_delimited: bool) -> AveluafiPacket
    ensures { result ≡ packet_record (parsed self_delimited «data».now) }
{
    if opus::MOST_PACKET < data.len() {
        return no_packet(Refusal::BadArg);
    }
    if self_delimited {
        let s = opus::own::own_at(data);
        match s {
            Short::One(size, first) => {
                let mut lengths = [0u16; 48];
                lengths[0] = size;
                return AveluafiPacket {
                    report: opus_defines::report_of(Ok(1)),
                    lengths,
                    toc: data[0],
                    payload_offset: first,
                    packet_offset: first + (size as usize),
                };
            }
            Short::Two(size, last, first) => {
                let mut lengths = [0u16; 48];
                lengths[0] = size;
                lengths[1] = last;
                return AveluafiPacket {
                    report: opus_defines::report_of(Ok(2)),
                    lengths,
                    toc: data[0],
                    payload_offset: first,
                    packet_offset: first + (size as usize) + (last as usize),
                };
            }
            Short::Broken(rule, place) => {
                return no_packet(opus_defines::rule_refusal(rule, place));
            }
            Short::Counted => {}
        }
    }
    let mut lengths = [0u16; 48];
    match opus::read_into(data, self_delimited, &mut lengths) {
        Ok(p) => return whole_packet(p, lengths),
        Err(e) => return no_packet(e),
    }
}

// The ordinary packet. One or two frames of code 0, 1 or 2, and equally long ones of code 3, are read without an array, and each way returns by itself:
// where ways meet, the record is copied once more.
#[unsafe(no_mangle)]
pub extern "C" fn aveluafi_packet_parse(data: &[u8]) -> AveluafiPacket
    ensures { result ≡ packet_record (parsed false «data».now) }
{
    let s = opus::short_at(data);
    match s {
        Short::One(n, first) => {
            let mut lengths = [0u16; 48];
            lengths[0] = n;
            return AveluafiPacket {
                report: opus_defines::report_of(Ok(1)),
                lengths,
                toc: data[0],
                payload_offset: first,
                packet_offset: data.len(),
            };
        }
        Short::Two(m, n, first) => {
            let mut lengths = [0u16; 48];
            lengths[0] = m;
            lengths[1] = n;
            return AveluafiPacket {
                report: opus_defines::report_of(Ok(2)),
                lengths,
                toc: data[0],
                payload_offset: first,
                packet_offset: data.len(),
            };
        }
        Short::Broken(rule, place) => {
            if opus::MOST_PACKET < data.len() {
                return no_packet(Refusal::BadArg);
            }
            return no_packet(opus_defines::rule_refusal(rule, place));
        }
        Short::Counted => {}
    }
    if opus::MOST_PACKET < data.len() {
        return no_packet(Refusal::BadArg);
    }
    let e = opus::code_3::equal_at(data);
    match e {
        Equal::Same(n, each, first) => {
            let mut lengths = [0u16; 48];
            opus_parts::sizes_at::same_lengths(opus_defines::wide(n), each, &mut lengths);
            return AveluafiPacket {
                report: opus_defines::report_of(Ok(n)),
                lengths,
                toc: data[0],
                payload_offset: first,
                packet_offset: data.len(),
            };
        }
        Equal::Wrong(rule, place) => {
            return no_packet(opus_defines::rule_refusal(rule, place));
        }
        Equal::Other => {}
    }
    let mut lengths = [0u16; 48];
    match opus::read_packet(data, false, &mut lengths) {
        Ok(p) => return whole_packet(p, lengths),
        Err(e) => return no_packet(e),
    }
}

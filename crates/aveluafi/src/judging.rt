// The judge of packets (document 02, M-110), exported.
ghost use Rattle.std.specs.Prelude.{◌≡◌};
ghost use Rattle.packet_judge.specs.Judging.{judged};
ghost use Rattle.aveluafi.specs.Verdicts.{verdict_record};

use packet_judge::Judged;

// What a packet is judged to be. Beside a refusal every other field is 0, and beside a verdict each field that it does not have.
#[repr(C)]
#[derive(Clone, Copy)]
pub struct AveluafiVerdict {
    // 0, or the refusal.
    pub number: i32,
    // 1 unreadable, 2 dirty, 3 longer than needed, 4 clean.
    pub verdict: u16,
    // Of an unreadable packet the rule that it breaks, and the place.
    pub rule: u16,
    pub place: usize,
    // Of a packet that is longer than needed the least length, in bytes.
    pub least: usize,
}

fn verdict_record(j: Judged) -> AveluafiVerdict
    ensures { result ≡ verdict_record j }
{
    match j {
        Judged::Refused(e) => AveluafiVerdict {
            number: opus_defines::refusal_number(e),
            verdict: 0,
            rule: 0,
            place: 0,
            least: 0,
        },
        Judged::Unreadable(rule, place) => AveluafiVerdict {
            number: 0,
            verdict: 1,
            rule: opus_defines::rule_number(rule),
            place,
            least: 0,
        },
        Judged::Dirty => AveluafiVerdict {
            number: 0,
            verdict: 2,
            rule: 0,
            place: 0,
            least: 0,
        },
        Judged::Longer(least) => AveluafiVerdict {
            number: 0,
            verdict: 3,
            rule: 0,
            place: 0,
            least,
        },
        Judged::Clean => AveluafiVerdict {
            number: 0,
            verdict: 4,
            rule: 0,
            place: 0,
            least: 0,
        },
    }
}

// Judges the packet in the named delimiting; what stands behind a self-delimited one is no part of it.
#[unsafe(no_mangle)]
pub extern "C" fn aveluafi_packet_judge(data: &[u8], self_delimited: bool) -> AveluafiVerdict
    ensures { result ≡ verdict_record (judged self_delimited «data».now) }
{
    verdict_record(packet_judge::judge_packet(data, self_delimited))
}

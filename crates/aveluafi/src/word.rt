// A report in one number, with the bits that C has it in: the two calls that add get it in a register from the function that they share, where a
// struct goes through memory and each call copies it (14 to 16 instructions an add).
ghost use Rattle.std.specs.Prelude.{◌≡◌, ◌%◌};
ghost use Rattle.opus_defines.specs.Numbers.{refusal_report, verdict_report};
ghost use Rattle.aveluafi.specs.Words.{signed, report_in};

use opus_defines::{Refusal, Report};

// Every refusal has a number below 0.
fn refusal_word(e: Refusal) -> u64
    ensures { report_in result ≡ refusal_report e }
{
    let r = opus_defines::refusal_report(e);
    let below = (0 - r.number) as u64;
    4294967296 - below + (r.rule as u64) * 4294967296 + (r.place as u64) * 281474976710656
}

// 0 where a packet was added, so that an add has nothing to put together.
pub fn verdict_word(v: Result<(), Refusal>) -> u64
    ensures { report_in result ≡ verdict_report 0 v }
{
    let Err(e) = v else {
        return 0;
    };
    refusal_word(e)
}

fn number_in(w: u64) -> i32
    ensures { result ≡ signed (w % 4294967296) }
{
    let low = w % 4294967296;
    if low < 2147483648 {
        return low as i32;
    }
    ((low as i64) - 4294967296) as i32
}

pub fn report_in(w: u64) -> Report
    ensures { result ≡ report_in w }
{
    Report {
        number: number_in(w),
        rule: (w / 4294967296 % 65536) as u16,
        place: (w / 281474976710656) as u16,
    }
}

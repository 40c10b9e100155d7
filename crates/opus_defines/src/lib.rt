// The return numbers (opus_defines.rs of the crate, document 01 'Return numbers'), and the only places where a signed number is
// taken apart or made.
#![tactic(auto)]

ghost use Rattle.std.specs.Prelude.{◌≡◌, ℕ, ◌+◌, ◌<◌, ◌^◌, pos};
ghost use Rattle.opus_defines.specs.Numbers.{rule_number, refusal_report, refusal_number, number_of, report_of, verdict_number, verdict_report, count_of};
ghost use Rattle.opus_defines.specs.Rules.{rule_refusal, shifted};
ghost use Rattle.opus_defines.specs.declared.Refusal.TheVariants.{Unreadable};

// Added, padded, nothing to pad.
pub const OPUS_OK: u16 = 0;

// Why a call refuses: one type for the whole project.
#[derive(Clone, Copy, Debug, PartialEq, Eq)]
pub enum Refusal {
    BadArg,
    BufferTooSmall,
    InvalidPacket,
    InvalidState,
    // A packet that breaks a rule of RFC 6716, and the place of the first byte of the field concerned.
    Unreadable(Rule, u16),
    // A length field that is cut short, where the caller says which rule asks for it.
    CutShort(Rule),
    // A padding byte other than zero, which a strict add does not take (document 02, M-105).
    DirtyPadding,
    // The next record alone takes more bytes than the budget has (document 02, M-103).
    OverBudget,
    // No identification header: too short, other letters, or not as long as its fields need (document 02, M-111).
    BadHeader,
    // A header of a version that is not known (M-111).
    UnknownVersion,
    // A field of a header against the rules of RFC 7845 (M-111).
    BadField,
}

// What a call answers to C that reads a packet: a count or the refusal's number, and with an unreadable packet the rule, 1 to 8, and the place.
#[repr(C)]
#[derive(Clone, Copy, Debug, PartialEq, Eq)]
pub struct Report {
    pub number: i32,
    pub rule: u16,
    pub place: u16,
}

// The rules of RFC 6716, section 3.4, that a packet can break: R1 to R7, and R8 for a bad last length in the self-delimited form.
#[derive(Clone, Copy, Debug, PartialEq, Eq)]
pub enum Rule {
    R1 = 1,
    R2,
    R3,
    R4,
    R5,
    R6,
    R7,
    R8,
}

// The refusal of a packet that breaks a rule at a place.
#[tactic(auto, unfolding(crate::specs::Rules::rule_refusal))]
pub fn rule_refusal(rule: Rule, place: usize) -> Refusal
    requires { place < 65536 }
    ensures { result ≡ rule_refusal rule place }
{
    Refusal::Unreadable(rule, place as u16)
}

// The refusal of a packet that stands so many bytes further on in the buffer that was lent.
pub fn shift(e: Refusal, by: usize) -> Refusal
    requires { (refusal_report e).place + by < 65536 }
    ensures { result ≡ shifted by e }
{
    match e {
        Refusal::Unreadable(rule, place) => rule_refusal(rule, wide(place) + by),
        other => other,
    }
}

// The number of a rule.
pub fn rule_number(rule: Rule) -> u16
    ensures { result ≡ rule_number rule }
{
    rule as u16
}

// The number of a refusal.
fn plain_number(e: Refusal) -> i32
    ensures { result ≡ refusal_number e }
{
    match e {
        Refusal::BadArg => -1,
        Refusal::BufferTooSmall => -2,
        Refusal::InvalidPacket => -4,
        Refusal::InvalidState => -6,
        Refusal::Unreadable(_, _) => -4,
        Refusal::CutShort(_) => -1,
        Refusal::DirtyPadding => -20,
        Refusal::OverBudget => -21,
        Refusal::BadHeader => -22,
        Refusal::UnknownVersion => -23,
        Refusal::BadField => -24,
    }
}

// The report of a refusal other than that of an unreadable packet.
fn other_report(e: Refusal) -> Report
    ensures { ((rule : Rule) (place : ℕ) → e ≡ Unreadable rule place → ⊥) → result ≡ refusal_report e }
{
    let number = plain_number(e);
    let Refusal::CutShort(rule) = e else {
        return Report {
            number,
            rule: 0,
            place: 0,
        };
    };
    Report {
        number,
        rule: rule_number(rule),
        place: 0,
    }
}

// The number of a refusal, with rule and place. An unreadable packet is asked for first, and the number of the others looked up: of one `match` a table of
// jumps would be made, which costs every add.
pub fn refusal_report(e: Refusal) -> Report
    ensures { result ≡ refusal_report e }
{
    let Refusal::Unreadable(rule, place) = e else {
        return other_report(e);
    };
    Report {
        number: -4,
        rule: rule_number(rule),
        place,
    }
}

// The number alone.
pub fn refusal_number(e: Refusal) -> i32
    ensures { result ≡ refusal_number e }
{
    let r = refusal_report(e);
    r.number
}

// What a call returns whose answer is one number: every count, length and number of samples is below 65,536.
pub fn report_of(a: Result<u16, Refusal>) -> Report
    ensures { result ≡ report_of a }
{
    match a {
        Ok(n) => Report {
            number: n as i32,
            rule: 0,
            place: 0,
        },
        Err(e) => refusal_report(e),
    }
}

// The number that a call returns.
pub fn number_of(a: Result<u16, Refusal>) -> i32
    ensures { result ≡ number_of a }
{
    let r = report_of(a);
    r.number
}

// The number that a call returns whose answer is a record: n where it is accepted.
pub fn verdict_number(n: u16, v: Result<(), Refusal>) -> i32
    ensures { result ≡ verdict_number (pos n) v }
{
    number_of(v.map(|()| n))
}

// The same with rule and place.
pub fn verdict_report(n: u16, v: Result<(), Refusal>) -> Report
    ensures { result ≡ verdict_report n v }
{
    report_of(v.map(|()| n))
}

// A number of 16 bits, and a byte, as sizes: a caller knows the bound, which a cast would not say.
pub fn wide(x: u16) -> usize
    ensures { (result ≡ x) × (result < 65536) }
{
    x as usize
}

pub fn wide_byte(x: u8) -> usize
    ensures { (result ≡ x) × (result < 256) }
{
    x as usize
}

// A signed number, unless it is negative.
pub fn count_of(x: i32) -> Option<usize>
    ensures is { result ≡ count_of x }
    ensures small { (n : ℕ) → result ≡ Some n → n < 2 ^ 31 }
{
    usize::try_from(x).ok()
}

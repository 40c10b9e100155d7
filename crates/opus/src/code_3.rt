// An ordinary packet of code 3 whose frames are equally long (RFC 6716, section 3.2.5, its flag for unequal lengths not set), read without an array for
// their lengths: a refusal has none, and the array costs more than the reading.
ghost use Rattle.std.specs.Prelude.{◌≡◌, ◌≤◌, length};
ghost use Rattle.opus.specs.Answers.{shared_at, equal_at};

use opus_defines::{Rule, wide};
use opus_parts::padding_at::read_padding;

// How many frames, the bytes of each, and the place of the first; or the rule that is broken and where. `Other` is any other packet, which `read_into` reads.
#[derive(Clone, Copy, Debug, PartialEq, Eq)]
pub enum Equal {
    Same(u16, u16, usize),
    Wrong(Rule, usize),
    Other,
}

// The frames share the bytes between the padding lengths and the padding.
fn shared(rest: usize, count: u16, first: usize) -> Equal
    requires { (1 ≤ count) × (rest ≤ 65535) }
    ensures { result ≡ shared_at rest count first }
{
    let n = wide(count);
    if rest % n != 0 {
        return Equal::Wrong(Rule::R6, first);
    }
    let each = rest / n;
    if opus_size::MOST_BYTES < each {
        return Equal::Wrong(Rule::R2, first);
    }
    Equal::Same(count, each as u16, first)
}

pub fn equal_at(data: &[u8]) -> Equal
    requires { length «data».now ≤ 65535 }
    ensures { result ≡ equal_at «data».now }
{
    if data.len() == 0 {
        return Equal::Other;
    }
    if data[0] % 4 != 3 {
        return Equal::Other;
    }
    if data.len() < 2 {
        return Equal::Wrong(Rule::R5, 1);
    }
    let count_byte = data[1];
    if count_byte / 128 % 2 != 0 {
        return Equal::Other;
    }
    let count = (count_byte % 64) as u16;
    if count == 0 {
        return Equal::Wrong(Rule::R5, 1);
    }
    let each = opus_toc::samples_48k(data[0]);
    if !each.fits(count) {
        return Equal::Wrong(Rule::R5, 1);
    }
    let tail = &data[2..];
    let padding = read_padding(tail, count_byte);
    let Some((pad, next)) = padding else {
        return Equal::Wrong(Rule::R6, 2);
    };
    let first = 2 + next;
    shared(data.len() - pad - first, count, first)
}

// Frames behind their length fields: the first one's place in the slice and the sum of their lengths are answered, and the lengths put into a lent array. Of
// frames that break a rule nothing is said of the array.
ghost use Rattle.std.specs.Prelude.{◌≡◌, true, false, [], ◌<◌, ◌≤◌};
ghost use Rattle.opus_format.specs.Reading.{read_fields, together, unequal, equal};
ghost use Rattle.opus_format.specs.Frames.{padded48};
ghost use Rattle.opus_parts.specs.Parts.{SizesRead, FramesRead};

use crate::sizes_at::same_lengths;
use opus_defines::{Rule, wide};

// The rule that is broken, and the place of the field concerned.
pub type Broken = (Rule, usize);

// The last of k + 1 frames of unequal lengths takes the rest of the slice; the lengths of the others were read up to `next`.
fn rest_last(
    s: &[u8],
    next: usize,
    sum: usize,
    k: usize,
    lengths: &mut [u16; 48],
) -> Result<(usize, usize), Broken>
    requires read { SizesRead s.now (together (read_fields k s.now)) (Ok (next, sum)) lengths.old }
    requires few { k < 48 }
    ensures { (r : Rule) → FramesRead s.now (unequal false r k s.now) result lengths.new }
{
    let left = s.len() - next;
    let last = left - sum;
    if opus_size::MOST_BYTES < last {
        return Err((Rule::R2, next));
    }
    lengths[k] = last as u16;
    Ok((next, left))
}

// The last of k + 1 frames of unequal lengths has a length field of its own, behind the others'.
fn own_last(
    s: &[u8],
    next: usize,
    sum: usize,
    k: usize,
    lengths: &mut [u16; 48],
) -> Result<(usize, usize), Broken>
    requires read { SizesRead s.now (together (read_fields k s.now)) (Ok (next, sum)) lengths.old }
    requires few { k < 48 }
    ensures { (r : Rule) → FramesRead s.now (unequal true r k s.now) result lengths.new }
{
    let size = opus_size::size_at(s, next);
    let Some((last, first)) = size else {
        return Err((Rule::R8, next));
    };
    let total = sum + wide(last);
    if s.len() - first < total {
        return Err((Rule::R8, next));
    }
    lengths[k] = last;
    Ok((first, total))
}

// The last of k + 1 frames of unequal lengths, by the delimiting (codes 0 and 2, and code 3 with its flag).
pub fn last_frame(
    s: &[u8],
    next: usize,
    sum: usize,
    k: usize,
    self_delimited: bool,
    lengths: &mut [u16; 48],
) -> Result<(usize, usize), Broken>
    requires read { SizesRead s.now (together (read_fields k s.now)) (Ok (next, sum)) lengths.old }
    requires few { k < 48 }
    ensures { (r : Rule) → FramesRead s.now (unequal self_delimited r k s.now) result lengths.new }
{
    if self_delimited {
        own_last(s, next, sum, k, lengths)
    } else {
        rest_last(s, next, sum, k, lengths)
    }
}

// Frames of equal lengths that share the whole slice.
fn shared_equal(
    s: &[u8],
    count: usize,
    rule: Rule,
    lengths: &mut [u16; 48],
) -> Result<(usize, usize), Broken>
    requires { (1 ≤ count) × (count ≤ 48) × (lengths.old ≡ padded48 []) }
    ensures { FramesRead s.now (equal false rule count s.now) result lengths.new }
{
    let len = s.len();
    if len % count != 0 {
        return Err((rule, 0));
    }
    let each = len / count;
    if opus_size::MOST_BYTES < each {
        return Err((Rule::R2, 0));
    }
    same_lengths(count, each as u16, lengths);
    Ok((0, len))
}

// Frames of equal lengths behind a field that says their length.
fn own_equal(s: &[u8], count: usize, lengths: &mut [u16; 48]) -> Result<(usize, usize), Broken>
    requires { (1 ≤ count) × (count ≤ 48) × (lengths.old ≡ padded48 []) }
    ensures { (r : Rule) → FramesRead s.now (equal true r count s.now) result lengths.new }
{
    let size = opus_size::size_at(s, 0);
    let Some((each, first)) = size else {
        return Err((Rule::R8, 0));
    };
    let total = count * wide(each);
    if s.len() - first < total {
        return Err((Rule::R8, 0));
    }
    same_lengths(count, each, lengths);
    Ok((first, total))
}

// Frames of equal lengths (code 1, and code 3 without its flag, each with its rule).
pub fn equal_frames(
    s: &[u8],
    count: usize,
    rule: Rule,
    self_delimited: bool,
    lengths: &mut [u16; 48],
) -> Result<(usize, usize), Broken>
    requires { (1 ≤ count) × (count ≤ 48) × (lengths.old ≡ padded48 []) }
    ensures { FramesRead s.now (equal self_delimited rule count s.now) result lengths.new }
{
    if self_delimited {
        own_equal(s, count, lengths)
    } else {
        shared_equal(s, count, rule, lengths)
    }
}

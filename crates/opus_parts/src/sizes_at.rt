// Lengths that are put into a lent array of 48, which comes as zeros.
ghost use Rattle.std.specs.Prelude.{◌≡◌, [], ◌<◌, ◌≤◌, length, drop, replicate};
ghost use Rattle.opus_size.specs.Size.{length_field};
ghost use Rattle.opus_format.specs.Reading.{read_fields, together};
ghost use Rattle.opus_format.specs.Frames.{padded48};
ghost use Rattle.opus_parts.specs.Parts.{SizesRead, stop_at, cut_at};

use opus_defines::{wide, wide_byte};

// Where k length fields from a place on break: at the first that is not whole or above what stands behind it, else behind them.
fn break_at(s: &[u8], from: usize, k: usize) -> usize
    requires { from ≤ length s.now }
    ensures { result ≡ stop_at (length s.now) (read_fields k (drop from s.now)) }
{
    let mut next = from;
    for _ in 0..k {
        let f = opus_size::size_at(s, next);
        let Some((size, after)) = f else {
            return next;
        };
        if s.len() - after < wide(size) {
            return next;
        }
        next = after;
    }
    next
}

// Where fields break that do not fit together: at the last that was read, which ends at `next`, or among the k that follow. Those before it fit.
fn cut_at(s: &[u8], next: usize, last: usize, k: usize) -> usize
    requires { (next ≤ length s.now) × (1 ≤ last → length (length_field last) ≤ next) }
    ensures { result ≡ cut_at s.now next last k }
{
    if s.len() - next < last {
        return next - opus_size::size_bytes(last);
    }
    break_at(s, next, k)
}

// Several length fields at the front of a slice: the place behind them and the sum of the lengths, or the place where they break.
//
// Fields and frames together are held against the slice as they are read: where they do not fit, that is seen at the first length that shows it, and no
// field is read twice. A field is not read by `size_at`: where `used` is within the slice its first byte is there, and needs no test of its own.
pub fn read_sizes(s: &[u8], k: usize, lengths: &mut [u16; 48]) -> Result<(usize, usize), usize>
    requires { (k < 48) × (lengths.old ≡ padded48 []) }
    ensures { SizesRead s.now (together (read_fields k s.now)) result lengths.new }
{
    // The place of the next field, the bytes of fields and frames so far, and the last length.
    let mut next: usize = 0;
    let mut used: usize = 0;
    let mut last: usize = 0;
    for i in 0..k {
        if s.len() <= used {
            return Err(cut_at(s, next, last, k - i));
        }
        last = wide_byte(s[next]);
        next += 1;
        used += 1 + last;
        if 252 <= last {
            if s.len() <= next {
                return Err(next - 1);
            }
            let more = 4 * wide_byte(s[next]);
            last += more;
            used += 1 + more;
            next += 1;
        }
        lengths[i] = last as u16;
    }
    if s.len() < used {
        return Err(cut_at(s, next, last, 0));
    }
    Ok((next, used - next))
}

// Equal lengths.
pub fn same_lengths(count: usize, n: u16, lengths: &mut [u16; 48])
    requires { (count ≤ 48) × (lengths.old ≡ padded48 []) }
    ensures { lengths.new ≡ padded48 (replicate count n) }
{
    for length in &mut lengths[..count] {
        *length = n;
    }
}

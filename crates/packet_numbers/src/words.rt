// Ten frames or more looked at by words of eight bytes: four lengths, or eight numbers of packets, at a time. What is accepted so is sound; all else is
// looked at once more, frame by frame.
ghost use Rattle.std.specs.Prelude.{◌≡◌, ◌+◌, ◌*◌, ◌<◌, ◌≤◌, true, false, length, take, ◌≢◌, bit_and, slice_index};
ghost use Rattle.opus_format.specs.Frames.{total, longest};
ghost use Rattle.packet_numbers.specs.Numbers.{numbered, told};

use crate::look;
use low_first::eight_at;
use opus_defines::wide;

// No sum of the lengths of a sound collector.
pub const NOT_SOUND: usize = 65535;

// In each of four lengths the bits of 1,024 and more. 47 lengths below that have a sum below 65,536: four such sums stand side by side in a word.
const LONG: usize = 0xFC00FC00FC00FC00;

// In each of eight steps from a number to the next all bits but the lowest.
const STEPS: usize = 0xFEFEFEFEFEFEFEFE;

// Two lengths as a number, the first one lowest; then four, which are loaded as one word.
fn two_lengths(ns: &[u16], at: usize) -> usize
    requires { at + 2 ≤ length ns.now }
    ensures { (result ≡ slice_index ns.now at + 65536 * slice_index ns.now (at + 1)) × (result < 4294967296) }
{
    wide(ns[at]) + 65536 * wide(ns[at + 1])
}

fn four_lengths(ns: &[u16], at: usize) -> usize
    requires { at + 4 ≤ length ns.now }
    ensures { result
        ≡ slice_index ns.now at + 65536 * slice_index ns.now (at + 1)
        + 4294967296 * (slice_index ns.now (at + 2) + 65536 * slice_index ns.now (at + 2 + 1)) }
{
    two_lengths(ns, at) + 4294967296 * two_lengths(ns, at + 2)
}

// Whether one of the lengths in a word is 1,024 or more; the contract says what is needed where none is.
fn over(a: usize) -> bool
    ensures { result ≡ false → bit_and a 0xFC00FC00FC00FC00 ≡ 0 }
{
    a & LONG != 0
}

// False only where each of the eight numbers behind a place is the one before it or the next: then the difference of the two words is 0 or 1 in each
// byte, and none borrows from another.
fn steps_wrong(ks: &[u8], at: usize) -> bool
    requires { (at + 9 ≤ length ks.now) × (length ks.now ≤ 48) }
    ensures { result ≡ false → numbered (take (at + 1) ks.now) ≡ true → numbered (take (at + 9) ks.now) ≡ true }
{
    std::num::wrapping_sub_usize(eight_at(ks, at + 1), eight_at(ks, at)) & STEPS != 0
}

// True only where the numbers begin at 0, and each is the one before it or the next. The eight steps before the last one have a word of their own, in which
// some may be looked at a second time. The last number is read by itself: no word is read over what the add before has just stored.
fn numbers_go(ks: &[u8], n: usize) -> bool
    requires { (10 ≤ n) × (n ≤ length ks.now) × (length ks.now ≤ 48) }
    ensures { result ≡ true → numbered (take n ks.now) ≡ true }
{
    if ks[0] != 0 {
        return false;
    }
    let end = n - 10;
    let mut i: usize = 0;
    while i < end {
        if steps_wrong(ks, i) {
            return false;
        }
        i += 8;
    }
    if steps_wrong(ks, end) {
        return false;
    }
    std::num::wrapping_sub_u8(ks[n - 1], ks[n - 2]) <= 1
}

// The sum of lengths that are all below 1,024, or NOT_SOUND: most frames are that short. The last length, too, is read by itself.
fn total_of(ns: &[u16], n: usize) -> usize
    requires { (1 ≤ n) × (n ≤ length ns.now) × (length ns.now ≤ 48) }
    ensures { (result ≢ 65535) → (longest (take n ns.now) < 1024) × (result ≡ total (take n ns.now)) }
{
    let m = n - 1;
    let eights = m / 8 * 8;
    let mut sum: usize = 0;
    for k in 0..m / 8 {
        let i = 8 * k;
        let a = four_lengths(ns, i);
        if over(a) {
            return NOT_SOUND;
        }
        let b = four_lengths(ns, i + 4);
        if over(b) {
            return NOT_SOUND;
        }
        sum = sum + a + b;
    }
    if m / 4 % 2 == 1 {
        let a = four_lengths(ns, eights);
        if over(a) {
            return NOT_SOUND;
        }
        sum = sum + a;
    }
    if m / 2 % 2 == 1 {
        let a = two_lengths(ns, m / 4 * 4);
        if over(a) {
            return NOT_SOUND;
        }
        sum = sum + a;
    }
    if m % 2 == 1 {
        let a = wide(ns[m - 1]);
        if over(a) {
            return NOT_SOUND;
        }
        sum = sum + a;
    }
    let last = wide(ns[m]);
    if over(last) {
        return NOT_SOUND;
    }
    let pairs = sum + sum / 4294967296;
    let all = pairs + pairs / 65536 + last;
    all % 65536
}

// The sum of the first n lengths, or NOT_SOUND where a sound collector cannot have these lengths and numbers.
pub fn tell(ns: &[u16; 48], ks: &[u8; 48], n: usize) -> usize
    requires { (1 ≤ n) × (n ≤ 48) }
    ensures { result ≡ told (take n ns.now) (take n ks.now) }
{
    let lengths = &ns[..];
    let numbers = &ks[..];
    if 10 <= n {
        let t = total_of(lengths, n);
        if t != NOT_SOUND {
            if numbers_go(numbers, n) {
                return t;
            }
        }
    }
    let l = look(&lengths[0..n], &numbers[0..n]);
    if 1 < l.wrong {
        return NOT_SOUND;
    }
    l.total as usize
}

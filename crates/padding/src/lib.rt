// Padding bytes of a packet (RFC 6716, section 3.2.5): whether one of them is not zero (document 02, M-105).
#![tactic(auto)]

ghost use Rattle.std.specs.Prelude.{◌≡◌, true, cond, ◌≤◌, max, eqb, length};
ghost use Rattle.opus_format.specs.Frames.{longest};
ghost use Rattle.opus_format.specs.Dirt.{dirty, dirty_packet};
ghost use Rattle.padding.specs.Asked.{asks_padding};

// The most bytes that are looked at by words of eight: of more, the largest byte is found sooner.
const MOST_WORDS: usize = 128;

// The largest byte. No test leaves the loop, so that sixteen bytes or more are taken at a time.
fn largest(s: &[u8]) -> u8
    ensures { result ≡ longest s.now }
{
    let mut most: u8 = 0;
    for i in 0..s.len() {
        most = most.max(s[i]);
    }
    most
}

// A byte more.
fn dirt_or(dirt: bool, b: u8) -> bool
    ensures { result ≡ cond (eqb b 0) dirt true }
{
    b != 0 || dirt
}

// Whether one of eight bytes is not zero: they are loaded and compared as one word.
fn dirt_in_word(s: &[u8]) -> bool
    requires { length s.now ≡ 8 }
    ensures { result ≡ dirty s.now }
{
    let mut dirt = false;
    for &b in s {
        dirt = dirt_or(dirt, b);
    }
    dirt
}

// The same of eight bytes or more. The last word may overlap the one before it, so that no byte is left over to be looked at by itself.
fn dirt_in_words(s: &[u8]) -> bool
    requires { 8 ≤ length s.now }
    ensures { result ≡ dirty s.now }
{
    let n = s.len();
    let last = n - 8;
    let mut i: usize = 0;
    while i < last {
        let end = i + 8;
        if dirt_in_word(&s[i..end]) {
            return true;
        }
        i = end;
    }
    dirt_in_word(&s[last..n])
}

// Whether one of these bytes is not zero.
pub fn dirt_in(s: &[u8]) -> bool
    ensures { result ≡ dirty s.now }
{
    let n = s.len();
    if n < 8 {
        return largest(s) != 0;
    }
    if n <= MOST_WORDS {
        return dirt_in_words(s);
    }
    largest(s) != 0
}

// Whether the first two bytes of a packet ask for padding: most packets do not, and need not be read for it.
fn asks_padding(data: &[u8]) -> bool
    ensures { result ≡ asks_padding «data».now }
{
    if data.len() < 2 {
        return false;
    }
    if data[0] % 4 != 3 {
        return false;
    }
    data[1] / 64 % 2 == 1
}

// Whether the packet at the front of `data`, once it is read, has a padding byte that is not zero.
fn read_dirty(data: &[u8], self_delimited: bool) -> bool
    requires { length «data».now ≤ 65535 }
    ensures { result ≡ dirty_packet self_delimited «data».now }
{
    let mut lengths = [0u16; 48];
    let Ok(p) = opus::read_into(data, self_delimited, &mut lengths) else {
        return false;
    };
    let m = opus_header::sums_of(&lengths[..p.count as usize]);
    let from = p.first + m.total;
    dirt_in(&data[from..p.taken])
}

// The same, of any packet of at most 65,535 bytes: false where it cannot be read.
pub fn is_dirty(data: &[u8], self_delimited: bool) -> bool
    requires { length «data».now ≤ 65535 }
    ensures { result ≡ dirty_packet self_delimited «data».now }
{
    if !asks_padding(data) {
        return false;
    }
    read_dirty(data, self_delimited)
}

// The first byte of a mark, 4B (document 02, M-101), sought by words of eight bytes.
#![tactic(auto)]

ghost use Rattle.std.specs.Prelude.{◌≡◌, List, ℕ, ◌+◌, ◌<◌, ◌≤◌, length, take, drop};
ghost use Rattle.laws.specs.Bytes.{Bytes};
ghost use Rattle.laws.specs.Scan.{index_of, slice};
ghost use Rattle.low_first.specs.Numbers.{from_low};
ghost use Rattle.marks.specs.Flags.{flags_of};

// 128 in each byte of a word that is 4B, and 0 in the others. With 127 added to its lower seven bits a byte that is not zero has its highest bit set, there or
// before; no sum passes its byte.
fn marks_in(w: usize) -> usize
    ensures { (l : List ℕ) → length l ≡ 8 → Bytes l → w ≡ from_low l → result ≡ flags_of l }
{
    let x = w ^ 0x4B4B4B4B4B4B4B4B;
    let y = (x & 0x7F7F7F7F7F7F7F7F) + 0x7F7F7F7F7F7F7F7F;
    0x8080808080808080 - ((y | x) & 0x8080808080808080)
}

fn marks_at(data: &[u8], at: usize) -> usize
    requires { at + 8 ≤ length «data».now }
    ensures { result ≡ flags_of (take 8 (drop at «data».now)) }
{
    marks_in(low_first::eight_at(data, at))
}

// The first of a word's bytes that is so marked; 8 where none is.
fn first_in(t: usize) -> usize
    ensures first { (l : List ℕ) → length l ≡ 8 → t ≡ flags_of l → result ≡ index_of 0x4B l }
    ensures most { result ≤ 8 }
{
    (usize::trailing_zeros(t) / 8) as usize
}

// Looks at 32 bytes: the place of the first 4B among them, or 32.
fn in_32(data: &[u8], at: usize) -> usize
    requires { at + 32 ≤ length «data».now }
    ensures most { result ≤ 32 }
    ensures found { result < 32 → index_of 0x4B (drop at «data».now) ≡ result }
    ensures none { result ≡ 32 → index_of 0x4B (drop at «data».now) ≡ 32 + index_of 0x4B (drop (at + 32) «data».now) }
{
    let a = marks_at(data, at);
    let b = marks_at(data, at + 8);
    let c = marks_at(data, at + 16);
    let d = marks_at(data, at + 24);
    if a != 0 {
        return first_in(a);
    }
    if b != 0 {
        return 8 + first_in(b);
    }
    if c != 0 {
        return 16 + first_in(c);
    }
    24 + first_in(d)
}

// The same byte by byte.
fn find_from(data: &[u8], from: usize) -> usize
    requires { from ≤ length «data».now }
    ensures place { result ≡ from + index_of 0x4B (slice from (length «data».now) «data».now) }
    ensures within { result ≤ length «data».now }
{
    for at in from..data.len() {
        if data[at] == 0x4B {
            return at;
        }
    }
    data.len()
}

// The place of the first 4B from a place on, or the end.
pub fn find_mark(data: &[u8], at: usize) -> usize
    requires { at ≤ length «data».now }
    ensures place { result ≡ at + index_of 0x4B (slice at (length «data».now) «data».now) }
    ensures within { result ≤ length «data».now }
{
    if at < data.len() {
        if data[at] == 0x4B {
            return at;
        }
    }
    let mut place = at;
    while 32 <= data.len() - place {
        let m = in_32(data, place);
        if m < 32 {
            return place + m;
        }
        place += 32;
    }
    find_from(data, place)
}

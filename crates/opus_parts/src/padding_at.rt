// Padding lengths, which the count byte of code 3 may ask for.
ghost use Rattle.std.specs.Prelude.{◌≡◌, ◌/◌, ◌%◌, ◌<◌, length};
ghost use Rattle.opus_format.specs.Reading.{read_chain, read_padding};
ghost use Rattle.opus_parts.specs.Parts.{padding_at};

use opus_defines::wide_byte;

// The padding lengths at the front of a slice: how many padding bytes they say and the place behind them, unless the padding does not fit the slice. The
// chain is left as soon as its padding cannot fit any more, so that a long run of 255 costs little.
fn read_chain(s: &[u8]) -> Option<(usize, usize)>
    ensures { result ≡ padding_at (length s.now) (read_chain s.now) }
{
    let mut pad: usize = 0;
    for at in 0..s.len() {
        let b = wide_byte(s[at]);
        let next = at + 1;
        if b != 255 {
            if s.len() - next < pad + b {
                return None;
            }
            return Some((pad + b, next));
        }
        pad += 254;
        if s.len() - next < pad {
            return None;
        }
    }
    None
}

// The padding that the count byte's flag and the bytes behind it say.
pub fn read_padding(s: &[u8], count_byte: u8) -> Option<(usize, usize)>
    ensures { result ≡ padding_at (length s.now) (read_padding (count_byte / 64 % 2) s.now) }
{
    if count_byte / 64 % 2 == 0 {
        return Some((0, 0));
    }
    read_chain(s)
}

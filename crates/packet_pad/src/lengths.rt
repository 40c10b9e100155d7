// The lengths that a call in place is given, tested once for pad, unpad and both multistream calls (document 01, 'Return numbers').
ghost use Rattle.std.specs.Prelude.{◌≡◌};
ghost use Rattle.packet_pad.specs.Lengths.{length_of, lengths_of};

// What the packet's length and the new one ask for: a refusal, nothing, or a packet of the first length padded to the second.
#[derive(Clone, Copy, Debug, PartialEq, Eq)]
pub enum Lengths {
    Bad,
    Same,
    More(usize, usize),
}

// A length within the lent buffer and at most 65,535; 0 for any other number.
pub fn length_of(data: &[u8], len: i32) -> usize
    ensures { result ≡ length_of «data».now len }
{
    let Some(n) = opus_defines::count_of(len) else {
        return 0;
    };
    if data.len() < n {
        return 0;
    }
    if opus::MOST_PACKET < n {
        return 0;
    }
    n
}

#[tactic(auto, using(crate::proofs::Given::lengths_by_tests))]
pub fn lengths_of(data: &[u8], len: i32, new_len: i32) -> Lengths
    ensures { result ≡ lengths_of «data».now len new_len }
{
    let n = length_of(data, len);
    let m = length_of(data, new_len);
    if n == 0 {
        return Lengths::Bad;
    }
    if m == 0 {
        return Lengths::Bad;
    }
    if n == m {
        return Lengths::Same;
    }
    if m < n {
        return Lengths::Bad;
    }
    Lengths::More(n, m)
}

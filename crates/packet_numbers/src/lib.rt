// For each frame held the number of the accepted packet that it came in (document 02, M-107): looked at, and given to new frames.
#![tactic(auto)]

ghost use Rattle.std.specs.Prelude.{◌≡◌, ◌-◌, ◌*◌, ◌%◌, ◌<◌, ◌≤◌, length, replicate, nat_le, slice_index};
ghost use Rattle.std.proofs.lemmas.List.Edits.{sets};
ghost use Rattle.opus_format.specs.Frames.{total};
ghost use Rattle.packet_numbers.specs.Numbers.{number_after, excess, jump, kept_well};

pub mod words;

// What one pass over lengths and numbers finds: the sum of the lengths modulo 65,536, and a number that is above 1 exactly where they are not those of a
// sound collector.
#[derive(Clone, Copy)]
pub struct Looked {
    pub total: u16,
    pub wrong: u16,
}

// Above 1 exactly where a length is above 1275.
fn excess(n: u16) -> u16
    ensures { result ≡ excess n }
{
    n.saturating_sub(1274)
}

// Above 1 exactly where a number is neither the one before it nor the next: numbers that begin at 0 and go by 0 or 1 do not reach 255, where the next
// one would be 0.
fn jump(before: u8, k: u8) -> u16
    ensures { result ≡ jump before k }
{
    std::num::wrapping_sub_u8(k, before) as u16
}

// Above 1 exactly where the first number is not 0.
fn start(k: u8) -> u16
    ensures { result ≡ k * 2 }
{
    (k as u16) * 2
}

// No test leaves the loop and all is counted in 16 bits, so that eight frames or more are taken at a time.
pub fn look(ns: &[u16], ks: &[u8]) -> Looked
    requires { (1 ≤ length ns.now) × (length ns.now ≤ 48) × (length ks.now ≡ length ns.now) }
    ensures { (result.total ≡ total ns.now % 65536) × (nat_le result.wrong 1 ≡ kept_well ns.now ks.now) }
{
    let mut sum = ns[0];
    let mut wrong = excess(ns[0]) | start(ks[0]);
    for i in 1..ns.len() {
        sum = sum.wrapping_add(ns[i]);
        wrong = wrong | excess(ns[i]) | jump(ks[i - 1], ks[i]);
    }
    Looked { total: sum, wrong }
}

// The number of the packet behind the first n frames.
fn next_number(packet: &[u8], n: usize) -> u8
    requires { (n ≤ length packet.now) × (1 ≤ n → slice_index packet.now (n - 1) < 255) }
    ensures { result ≡ number_after packet.now n }
{
    if n == 0 {
        return 0;
    }
    packet[n - 1] + 1
}

// The frames from a place to an end get the next number. The first one stands alone: most packets have one frame, and filling becomes a call.
pub fn put_numbers(packet: &mut [u8], at: usize, end: usize)
    requires { (at ≤ end) × (end ≤ length packet.old) × (1 ≤ at → slice_index packet.old (at - 1) < 255) }
    ensures { packet.new ≡ sets packet.old at (replicate (end - at) (number_after packet.old at)) }
{
    if at < end {
        let k = next_number(packet, at);
        packet[at] = k;
        let next = at + 1;
        if next < end {
            blocks::fill(packet, next, end - next, k);
        }
    }
}

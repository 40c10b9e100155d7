// The shorter of a packet's two spellings (document 02, M-103): the compact packet, or the packet as it is.
#![tactic(auto)]

ghost use Rattle.std.specs.Prelude.{◌≡◌, true, false, ◌+◌, ◌≤◌, length, get_or, drop};
ghost use Rattle.opus_size.specs.Size.{most_bytes};
ghost use Rattle.opus_toc.specs.Toc.{code, upper_six};
ghost use Rattle.opus_format.specs.Frames.{cut, total, longest};
ghost use Rattle.opus_defines.specs.Bounds.{most_packet};
ghost use Rattle.opus_defines.specs.Outcome.{written};
ghost use Rattle.opus_header.specs.Compact.{compact};
ghost use Rattle.spelling.specs.Spelling.{spelling_of, spelling, compact_of, shorter as Spelling·shorter, work_after};

use opus_defines::wide_byte;

// Which spelling is taken: the packet's own, or the compact one, of so many bytes.
#[derive(Clone, Copy)]
pub enum Spelling {
    Original,
    Compact(usize),
}

// Frames of lengths `ns`, which stand in `packet` from `first` on, as the compact packet at the front of `work`, if that is shorter than the packet and
// fits.
fn spell_frames(packet: &[u8], work: &mut [u8], toc: u8, ns: &[u16], first: usize) -> Spelling
    requires some { (1 ≤ length ns.now) × (length ns.now ≤ 48) × (longest ns.now ≤ most_bytes) }
    requires block { first + total ns.now ≤ length packet.now }
    ensures taken { result
        ≡ spelling_of packet.now (length work.old)
        (written (compact false (upper_six toc) (cut ns.now (drop first packet.now)))) }
    ensures bytes { work.new
        ≡ work_after (compact false (upper_six toc) (cut ns.now (drop first packet.now))) work.old result }
{
    let m = opus_header::sums_of(ns);
    let need = opus_header::compact_bytes(ns.len(), m, false);
    if packet.len() <= need {
        return Spelling::Original;
    }
    if work.len() < need {
        return Spelling::Original;
    }
    let form = opus_header::compact_form(ns.len());
    let at = opus_header::put_header(work, toc, ns, m, form, false);
    blocks::copy_into(work, at, packet, first, m.total);
    Spelling::Compact(need)
}

// Takes the shorter spelling of a packet, and writes it to the front of `work` if that is the compact one; otherwise nothing is written. It lends nothing
// back, so that its contract says what `work` holds at the end.
pub fn spell(packet: &[u8], work: &mut [u8]) -> Spelling
    ensures taken { result ≡ spelling packet.now (length work.old) }
    ensures bytes { work.new ≡ work_after (compact_of packet.now) work.old result }
{
    let mut lengths = [0u16; 48];
    match opus::read_into(packet, false, &mut lengths) {
        Ok(p) => spell_frames(packet, work, p.toc, &lengths[..p.count as usize], p.first),
        Err(_) => Spelling::Original,
    }
}

// The chooser: the packet in its shorter spelling, as a part of `work` or the packet itself.
pub fn shorter<'a>(packet: &'a [u8], work: &'a mut [u8]) -> &'a [u8]
    ensures { result.now ≡ Spelling·shorter packet.now (length work.old) }
{
    let Spelling::Compact(n) = spell(packet, work) else {
        return packet;
    };
    let t = &work[..];
    &t[..n]
}

// Whether a packet of code 2 is seen to have two lengths: the first one's field has a byte, and that does not say half of the rest.
fn uneven(packet: &[u8]) -> bool
    requires { (2 ≤ length packet.now) × (code (get_or packet.now 0 0) ≡ 2) }
    ensures { result ≡ true → Spelling·shorter packet.now most_packet ≡ packet.now }
{
    let n = packet[1];
    if 252 <= n {
        return false;
    }
    if 2 + 2 * wide_byte(n) == packet.len() {
        return false;
    }
    true
}

// Whether a packet of code 3 with its flag for unequal lengths is seen to have such: the first one's field has a byte, and the second's begins with another.
fn unequal(packet: &[u8]) -> bool
    requires coded { (4 ≤ length packet.now) × (code (get_or packet.now 0 0) ≡ 3) }
    requires counted { (131 ≤ get_or packet.now 1 0) × (get_or packet.now 1 0 ≤ 176) }
    ensures { result ≡ true → Spelling·shorter packet.now most_packet ≡ packet.now }
{
    let n = packet[2];
    if 252 <= n {
        return false;
    }
    if n == packet[3] {
        return false;
    }
    true
}

// Whether a packet is seen by its first bytes to be the compact one, if it can be read: then it stays as it is. No says nothing.
// Code 3 without padding, for three frames or more: the count byte is the count, and 128 more where lengths are told.
pub fn stays(packet: &[u8]) -> bool
    ensures { result ≡ true → Spelling·shorter packet.now most_packet ≡ packet.now }
{
    if packet.len() == 0 {
        return false;
    }
    let c = packet[0] % 4;
    if c < 2 {
        return true;
    }
    if packet.len() < 4 {
        return false;
    }
    if c == 2 {
        return uneven(packet);
    }
    let n = packet[1];
    match n {
        3..=48 => true,
        131..=176 => unequal(packet),
        _ => false,
    }
}

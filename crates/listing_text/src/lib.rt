// The listing of an ordinary packet, put into a buffer as text.
#![tactic(auto)]

ghost use Rattle.std.specs.Prelude.{◌≡◌, ◌++◌, false, ◌+◌, ◌<◌, ◌≤◌, pos, length};
ghost use Rattle.std.proofs.lemmas.List.Edits.{sets};
ghost use Rattle.io.specs.Counts.{IsPrefixLen};
ghost use Rattle.opus_size.specs.Size.{most_bytes};
ghost use Rattle.opus_format.specs.Frames.{total, longest};
ghost use Rattle.opus_header.specs.Sums.{sums_of};
ghost use Rattle.opus_header.specs.Forms.{compact_bytes};
ghost use Rattle.show.specs.Text.{decimal};
ghost use Rattle.listing_text.specs.Listing.{frame_line, frame_lines, times, sizes, packet_text, report_line};
ghost use Rattle.listing_text.specs.Listing.{listing as Listing·listing};

use show::TextBuf;

// ---- a packet that was read

#[tactic(auto, unfolding(crate::specs::Listing::times))]
fn put_times<const N: usize>(text: &mut TextBuf<N>, toc: u8, ns: &[u16])
    requires some { length ns.now ≤ 48 }
    requires room { length text.old + length (times toc ns.now) ≤ N }
    ensures { text.new ≡ text.old ++ times toc ns.now }
{
    let time = opus_toc::time_48k(toc, ns.len() as u16);
    text.put_line(b"toc ", toc as usize);
    text.put_line(b"count ", ns.len());
    text.put_line(b"time ", time as usize);
}

#[tactic(auto, unfolding(crate::specs::Listing::sizes))]
fn put_sizes<const N: usize>(text: &mut TextBuf<N>, first: usize, taken: usize, small: usize)
    requires { length text.old + length (sizes first taken small) ≤ N }
    ensures { text.new ≡ text.old ++ sizes first taken small }
{
    text.put_line(b"payload ", first);
    text.put_line(b"packet ", taken);
    text.put_line(b"compact ", small);
}

#[tactic(auto, unfolding(crate::specs::Listing::frame_line))]
fn put_frame<const N: usize>(text: &mut TextBuf<N>, i: usize, place: usize, n: usize)
    requires { length text.old + length (frame_line i place n) ≤ N }
    ensures { text.new ≡ text.old ++ frame_line i place n }
{
    text.put_named(b"frame ", i);
    text.put_named(b" at ", place);
    text.put_line(b" length ", n);
}

// Frames of lengths `ns`, the first at a place, each behind the one before.
fn put_frames<const N: usize>(text: &mut TextBuf<N>, first: usize, ns: &[u16])
    requires places { first + total ns.now ≤ 65535 }
    requires room { length text.old + length (frame_lines 0 first ns.now) ≤ N }
    ensures { text.new ≡ text.old ++ frame_lines 0 first ns.now }
{
    let mut place = first;
    for (i, length) in ns.iter().enumerate() {
        let n = usize::from(*length);
        put_frame(text, i, place, n);
        place += n;
    }
}

// The bytes of the compact packet.
fn compact_length(ns: &[u16]) -> usize
    requires { (1 ≤ length ns.now) × (length ns.now ≤ 48) × (longest ns.now ≤ most_bytes) }
    ensures { result ≡ compact_bytes (length ns.now) (sums_of ns.now) false }
{
    let m = opus_header::sums_of(ns);
    opus_header::compact_bytes(ns.len(), m, false)
}

#[tactic(auto, unfolding(crate::specs::Listing::packet_text))]
fn put_packet<const N: usize>(
    text: &mut TextBuf<N>,
    toc: u8,
    ns: &[u16],
    first: usize,
    taken: usize,
)
    requires some { (1 ≤ length ns.now) × (length ns.now ≤ 48) × (longest ns.now ≤ most_bytes) }
    requires places { first + total ns.now ≤ 65535 }
    requires room { length text.old
        + length (packet_text toc ns.now first taken (compact_bytes (length ns.now) (sums_of ns.now) false)) ≤ N }
    ensures { text.new
        ≡ text.old ++ packet_text toc ns.now first taken (compact_bytes (length ns.now) (sums_of ns.now) false) }
{
    let small = compact_length(ns);
    put_times(text, toc, ns);
    put_sizes(text, first, taken, small);
    put_frames(text, first, ns);
}

// ---- a packet that was refused

#[tactic(auto, unfolding(crate::specs::Listing::report_line, show::specs::Text::refused_label))]
fn put_report<const N: usize>(text: &mut TextBuf<N>, number: i32, rule: u16, place: u16)
    requires { length text.old + length (report_line number rule place) ≤ N }
    ensures { text.new ≡ text.old ++ report_line number rule place }
{
    text.put(b"refused ");
    text.put_number(number);
    text.put_named(b" ", rule as usize);
    text.put_line(b" ", place as usize);
}

// ---- the listing

fn build_listing<const N: usize>(data: &[u8], text: &mut TextBuf<N>)
    requires { length text.old + 2048 ≤ N }
    ensures { text.new ≡ text.old ++ Listing·listing «data».now }
{
    match opus::opus_packet_parse(data) {
        Ok(p) => put_packet(text, p.toc, &p.lengths[..p.count], p.first, p.taken),
        Err(e) => {
            let r = opus_defines::refusal_report(e);
            put_report(text, r.number, r.rule, r.place);
        }
    }
}

// Puts the listing of a packet at the front of `out`, and answers its bytes.
#[tactic(auto, using(crate::proofs::Answers::listing_most))]
pub fn listing(data: &[u8], out: &mut [u8]) -> usize
    requires { 2048 ≤ length out.old }
    ensures bytes { out.new ≡ sets out.old 0 (Listing·listing «data».now) }
    ensures next { result ≡ length (Listing·listing «data».now) }
    ensures within { IsPrefixLen result out.new }
{
    let mut text: TextBuf<2048> = TextBuf::new();
    build_listing(data, &mut text);
    text.copy_to(out)
}

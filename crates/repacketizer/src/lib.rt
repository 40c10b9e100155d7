// Adding packets to a collector (repacketizer.rs): by value, and as a head with its lengths and numbers lent.
#![tactic(auto)]

pub mod strict;

ghost use Rattle.std.specs.Prelude.{◌≡◌, [], ◌∷◌, false, ◌+◌, ◌<◌, ◌≤◌, length};
ghost use Rattle.std.proofs.lemmas.List.Edits.{sets};
ghost use Rattle.opus_size.specs.Size.{most_bytes};
ghost use Rattle.opus_toc.specs.Toc.{upper_six};
ghost use Rattle.opus_toc.specs.Answers.{nb_frames};
ghost use Rattle.opus_format.specs.Reading.{lasts};
ghost use Rattle.opus_format.specs.Frames.{total, longest};
ghost use Rattle.collector.specs.Parts.{collector_of, bare};
ghost use Rattle.repacketizer.specs.Adding.{goes_with, said_frames, stays_out, add_packet, added, added_by};
ghost use Rattle.repacketizer.specs.Parts.{ReadyAt, Leaves, refused_head, more_frames, add_block, why_not, add_packet_by, added_of};

use collector::{Head, OpusRepacketizer};
use opus::Short;
use opus_defines::{Refusal, wide};
use opus_toc::Samples8k;

// What an add answers: beside a refusal the collector is the one handed in.
#[derive(Clone, Copy)]
pub struct Added {
    pub verdict: Result<(), Refusal>,
    pub rp: OpusRepacketizer,
}

// Whether n frames with this TOC byte go with those held, whatever the lengths.
fn goes_with(h: Head, toc: u8, n: u16) -> bool
    requires { (h.nb_frames ≤ 48) × (n < 64) }
    ensures { result ≡ goes_with (bare h []) toc n }
{
    let count = h.nb_frames;
    if count == 0 {
        return true;
    }
    if toc / 4 != h.toc / 4 {
        return false;
    }
    let framesize = h.framesize;
    framesize.fits(count + n)
}

// Whether n frames with this TOC byte last at most 120 ms, by themselves.
fn lasting(toc: u8, n: u16) -> bool
    requires { n < 64 }
    ensures { result ≡ lasts (upper_six toc) n }
{
    if n == 0 {
        return false;
    }
    let each = opus_toc::samples_48k(toc);
    each.fits(n)
}

// The frames that the first bytes of a packet say.
fn said_frames(data: &[u8]) -> u16
    ensures { (result ≡ said_frames (nb_frames «data».now)) × (result < 64) }
{
    let a = opus_toc::nb_frames(data);
    match a {
        Ok(n) => n,
        Err(_) => 0,
    }
}

// Whether a packet does not go with the frames held, by its first bytes.
fn stays_out(h: Head, data: &[u8]) -> bool
    requires { h.nb_frames ≤ 48 }
    ensures { result ≡ stays_out (bare h []) «data».now }
{
    if data.len() == 0 {
        return false;
    }
    let toc = data[0];
    let n = said_frames(data);
    if goes_with(h, toc, n) {
        return false;
    }
    if h.toc / 4 != toc / 4 {
        return true;
    }
    lasting(toc, n)
}

// Why a packet that cannot be read is refused: 001 asks first whether it goes with the frames held. For refused packets alone.
fn why_not(h: Head, data: &[u8], e: Refusal) -> Refusal
    requires { h.nb_frames ≤ 48 }
    ensures { result ≡ why_not (bare h []) «data».now e }
{
    if stays_out(h, data) {
        return Refusal::InvalidPacket;
    }
    e
}

// The lengths of `ns` into `len` from a place on. The first one stands alone: most packets have one frame, and the loop becomes a call.
fn put_lengths(len: &mut [u16], at: usize, ns: &[u16])
    requires { (1 ≤ length ns.now) × (at + length ns.now ≤ length len.old) }
    ensures { len.new ≡ sets len.old at ns.now }
{
    len[at] = ns[0];
    for i in 1..ns.len() {
        len[at + i] = ns[i];
    }
}

// What an add answers where the lengths are lent. The count is no `u16`: a struct of eight bytes is kept in one register and taken apart by shifts.
#[derive(Clone, Copy)]
pub struct AddedHead {
    pub verdict: Result<(), Refusal>,
    pub toc: u8,
    pub framesize: Samples8k,
    pub count: usize,
}

// A collector with n frames more.
fn more_frames(h: Head, toc: u8, n: usize) -> AddedHead
    requires { h.nb_frames + n ≤ 48 }
    ensures { result ≡ more_frames h toc n }
{
    let framesize = h.framesize;
    let count = wide(h.nb_frames);
    if count == 0 {
        let each = opus_toc::samples_8k(toc);
        return AddedHead {
            verdict: Ok(()),
            toc,
            framesize: each,
            count: n,
        };
    }
    AddedHead {
        verdict: Ok(()),
        toc: h.toc,
        framesize,
        count: count + n,
    }
}

fn refused_add(e: Refusal, h: Head) -> AddedHead
    ensures { (result ≡ refused_head e h) × (result.count < 65536) }
{
    let framesize = h.framesize;
    AddedHead {
        verdict: Err(e),
        toc: h.toc,
        framesize,
        count: wide(h.nb_frames),
    }
}

// Adds frames of lengths `ns` that stand in `data` from place `first` on: one block is copied behind those held, which end at `at`. The numbers are given
// here and in the two functions below, where it is known how many frames are new.
fn add_block(
    h: Head,
    len: &mut [u16],
    packet: &mut [u8],
    at: usize,
    toc: u8,
    ns: &[u16],
    data: &[u8],
    first: usize,
    store: &mut [u8],
) -> AddedHead
    requires collector { ReadyAt h len.old packet.old at store.old }
    requires frames { (1 ≤ length ns.now) × (length ns.now ≤ 48)
        × (longest ns.now ≤ most_bytes) × (first + total ns.now ≤ length «data».now) }
    ensures { Leaves result len.new packet.new store.new
        (add_block (collector_of h len.old packet.old) toc ns.now «data».now first store.old) }
{
    if !goes_with(h, toc, ns.len() as u16) {
        return refused_add(Refusal::InvalidPacket, h);
    }
    let sum = collector::total_16(ns);
    blocks::copy_into(store, at, data, first, wide(sum));
    let place = wide(h.nb_frames);
    put_lengths(len, place, ns);
    packet_numbers::put_numbers(packet, place, place + ns.len());
    more_frames(h, toc, ns.len())
}

// The same for one frame of n bytes: going through a slice of lengths costs more than the rest.
fn add_one(
    h: Head,
    len: &mut [u16],
    packet: &mut [u8],
    at: usize,
    toc: u8,
    n: u16,
    data: &[u8],
    first: usize,
    store: &mut [u8],
) -> AddedHead
    requires collector { ReadyAt h len.old packet.old at store.old }
    requires frames { (longest (n ∷ []) ≤ most_bytes) × (first + total (n ∷ []) ≤ length «data».now) }
    ensures { Leaves result len.new packet.new store.new
        (add_block (collector_of h len.old packet.old) toc (n ∷ []) «data».now first store.old) }
{
    if !goes_with(h, toc, 1) {
        return refused_add(Refusal::InvalidPacket, h);
    }
    blocks::copy_into(store, at, data, first, wide(n));
    let place = wide(h.nb_frames);
    len[place] = n;
    packet_numbers::put_numbers(packet, place, place + 1);
    more_frames(h, toc, 1)
}

// The same for two frames.
fn add_two(
    h: Head,
    len: &mut [u16],
    packet: &mut [u8],
    at: usize,
    toc: u8,
    m: u16,
    n: u16,
    data: &[u8],
    first: usize,
    store: &mut [u8],
) -> AddedHead
    requires collector { ReadyAt h len.old packet.old at store.old }
    requires frames { (longest (m ∷ n ∷ []) ≤ most_bytes) × (first + total (m ∷ n ∷ []) ≤ length «data».now) }
    ensures { Leaves result len.new packet.new store.new
        (add_block (collector_of h len.old packet.old) toc (m ∷ n ∷ []) «data».now first store.old) }
{
    if !goes_with(h, toc, 2) {
        return refused_add(Refusal::InvalidPacket, h);
    }
    blocks::copy_into(store, at, data, first, wide(m) + wide(n));
    let place = wide(h.nb_frames);
    len[place] = m;
    len[place + 1] = n;
    packet_numbers::put_numbers(packet, place, place + 2);
    more_frames(h, toc, 2)
}

// Reads a packet of any code and adds it to a sound collector.
fn add_read(
    h: Head,
    len: &mut [u16],
    packet: &mut [u8],
    at: usize,
    data: &[u8],
    self_delimited: bool,
    store: &mut [u8],
) -> AddedHead
    requires { ReadyAt h len.old packet.old at store.old }
    ensures { Leaves result len.new packet.new store.new
        (add_packet self_delimited (collector_of h len.old packet.old) «data».now store.old) }
{
    if opus::MOST_PACKET < data.len() {
        return refused_add(Refusal::BadArg, h);
    }
    let mut lengths = [0u16; 48];
    match opus::read_into(data, self_delimited, &mut lengths) {
        Ok(p) => add_block(
            h,
            len,
            packet,
            at,
            p.toc,
            &lengths[..p.count as usize],
            data,
            p.first,
            store,
        ),
        Err(e) => refused_add(why_not(h, data, e), h),
    }
}

// The same, unless it is to be added strictly and its padding is dirty.
fn add_by(
    h: Head,
    len: &mut [u16],
    packet: &mut [u8],
    at: usize,
    data: &[u8],
    self_delimited: bool,
    strict: bool,
    store: &mut [u8],
) -> AddedHead
    requires { ReadyAt h len.old packet.old at store.old }
    ensures { Leaves result len.new packet.new store.new
        (add_packet_by strict self_delimited (collector_of h len.old packet.old) «data».now store.old) }
{
    if strict::asks_dirt(strict, data, self_delimited) {
        return refused_add(strict::dirty_refusal(h, data), h);
    }
    add_read(h, len, packet, at, data, self_delimited, store)
}

// Adds a packet to a sound collector: an ordinary one of code 0, 1 or 2, which has no padding, without an array for its lengths. One that breaks a rule,
// or is over 65,535 bytes long, is left to `add_by` to refuse, so that this way has no refusal to carry.
fn add_packet(
    h: Head,
    len: &mut [u16],
    packet: &mut [u8],
    at: usize,
    data: &[u8],
    self_delimited: bool,
    strict: bool,
    store: &mut [u8],
) -> AddedHead
    requires { ReadyAt h len.old packet.old at store.old }
    ensures { Leaves result len.new packet.new store.new
        (add_packet_by strict self_delimited (collector_of h len.old packet.old) «data».now store.old) }
{
    if self_delimited {
        return add_by(h, len, packet, at, data, true, strict, store);
    }
    let s = opus::short_at(data);
    match s {
        Short::One(n, first) => add_one(h, len, packet, at, data[0], n, data, first, store),
        Short::Two(m, n, first) => add_two(h, len, packet, at, data[0], m, n, data, first, store),
        _ => add_by(h, len, packet, at, data, false, strict, store),
    }
}

// Adds a packet in the named delimiting, strictly or not, to the collector with this head, these lengths and these numbers.
pub fn add(
    h: Head,
    len: &mut [u16; 48],
    packet: &mut [u8; 48],
    data: &[u8],
    self_delimited: bool,
    strict: bool,
    store: &mut [u8],
) -> AddedHead
    ensures answer { added_of result len.new packet.new
        ≡ (added_by strict self_delimited (collector_of h len.old packet.old) «data».now store.old
        ).answer }
    ensures bytes { store.new
        ≡ (added_by strict self_delimited (collector_of h len.old packet.old) «data».now store.old).store }
    ensures few { result.count < 65536 }
{
    let Some(total) = collector::check_words(h, len, packet) else {
        return refused_add(Refusal::InvalidState, h);
    };
    if store.len() < collector::LEAST_STORE {
        return refused_add(Refusal::BadArg, h);
    }
    add_packet(h, len, packet, total, data, self_delimited, strict, store)
}

// Adds a packet in the named delimiting, strictly or not, to the collector, whose frames stand in the store.
fn opus_repacketizer_cat_impl(
    rp: OpusRepacketizer,
    data: &[u8],
    self_delimited: bool,
    strict: bool,
    store: &mut [u8],
) -> Added
    ensures answer { result ≡ (added_by strict self_delimited rp «data».now store.old).answer }
    ensures bytes { store.new ≡ (added_by strict self_delimited rp «data».now store.old).store }
{
    let mut len = rp.len;
    let mut packet = rp.packet;
    let a = add(
        collector::head_of(rp),
        &mut len,
        &mut packet,
        data,
        self_delimited,
        strict,
        store,
    );
    let each = a.framesize;
    let v = a.verdict;
    Added {
        verdict: v,
        rp: OpusRepacketizer {
            toc: a.toc,
            nb_frames: a.count as u16,
            framesize: each,
            len,
            packet,
        },
    }
}

// Adds an ordinary packet.
pub fn opus_repacketizer_cat(rp: OpusRepacketizer, data: &[u8], store: &mut [u8]) -> Added
    ensures answer { result ≡ (added false rp «data».now store.old).answer }
    ensures bytes { store.new ≡ (added false rp «data».now store.old).store }
{
    opus_repacketizer_cat_impl(rp, data, false, false, store)
}

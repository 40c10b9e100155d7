// Many cuts in one call: a list of cut orders on one collector, their packets one behind another (document 02, M-106).
#![tactic(auto)]

ghost use Rattle.std.specs.Prelude.{◌≡◌, List, ◌++◌, true, false, ℕ, ◌-◌, ◌<◌, ◌≤◌, pos, length, take, drop};
ghost use Rattle.std.proofs.lemmas.List.Edits.{sets};
ghost use Rattle.opus_defines.specs.Numbers.{number_of};
ghost use Rattle.opus_defines.specs.Outcome.{refusal, leaves};
ghost use Rattle.opus_defines.specs.declared.Refusal.{Refusal};
ghost use Rattle.opus_toc.specs.Toc.{upper_six};
ghost use Rattle.opus_header.specs.Compact.{compact};
ghost use Rattle.collector.specs.Collector.{held, least_store, framed};
ghost use Rattle.collector.specs.Parts.{collector_of, bare};
ghost use Rattle.repacketizer_out.specs.Output.{range, out_frames};
ghost use Rattle.cut_orders.specs.Orders.{Cutting, begun, order_report, next, turns, done, natural, out_many};

use collector::Head;
use opus_defines::{Refusal, wide};

// The most orders of one call: a collector holds no more frames.
pub const MOST_ORDERS: usize = 48;

// One cut: the frames begin..end, and room for the length of their packet.
#[repr(C)]
#[derive(Clone, Copy)]
pub struct Order {
    pub begin: i32,
    pub end: i32,
    pub length: u32,
}

// What the call answers: the bytes of all packets, or the number of a refusal and the position of the order that is refused, from 1. The position is 0
// in every other answer.
#[repr(C)]
#[derive(Clone, Copy)]
pub struct OrderReport {
    pub number: i32,
    pub position: u32,
}

fn order_report(a: Result<u16, Refusal>, position: usize) -> OrderReport
    requires { position ≤ 48 }
    ensures { result ≡ record { number = number_of a; position = position } }
{
    OrderReport {
        number: opus_defines::number_of(a),
        position: position as u32,
    }
}

// What is refused before the orders are looked at: the collector, the store, the destination, the number of orders.
fn guard(
    h: Head,
    len: &[u16; 48],
    packet: &[u8; 48],
    store: usize,
    room: usize,
    orders: usize,
) -> Result<u16, Refusal>
    ensures { order_report (begun (collector_of h len.now packet.now) store room orders)
        ≡ record { number = number_of result; position = 0 } }
{
    let sound = collector::check(h, len, packet);
    let Some(_) = sound else {
        return Err(Refusal::InvalidState);
    };
    if store < collector::LEAST_STORE {
        return Err(Refusal::BadArg);
    }
    if opus::MOST_PACKET < room {
        return Err(Refusal::BadArg);
    }
    if MOST_ORDERS < orders {
        return Err(Refusal::BadArg);
    }
    Ok(0)
}

// The same as the report of a call that has done no order yet.
fn begin_orders(
    h: Head,
    len: &[u16; 48],
    packet: &[u8; 48],
    store: usize,
    room: usize,
    orders: usize,
) -> OrderReport
    ensures { result ≡ order_report (begun (collector_of h len.now packet.now) store room orders) }
{
    order_report(guard(h, len, packet, store, room, orders), 0)
}

// What the output of a range into so much room would answer, with any store. Nothing is written.
fn need_of(h: Head, len: &[u16], begin: i32, end: i32, room: usize) -> Result<u16, Refusal>
    requires { (length len.now ≡ 48) × (framed (bare h len.now) ≡ true) × (room ≤ 65535) }
    ensures most { natural (number_of result) ≤ room }
    ensures number { (store dst : List ℕ) → least_store ≤ length store
        → number_of result
        ≡ (leaves dst (out_frames false false (upper_six h.toc) (held (bare h len.now) store) begin end room)).report.number }
{
    let Some(b) = opus_defines::count_of(begin) else {
        return Err(Refusal::BadArg);
    };
    let Some(e) = opus_defines::count_of(end) else {
        return Err(Refusal::BadArg);
    };
    if e <= b {
        return Err(Refusal::BadArg);
    }
    if wide(h.nb_frames) < e {
        return Err(Refusal::BadArg);
    }
    let m = opus_header::sums_of(&len[b..e]);
    let need = opus_header::compact_bytes(e - b, m, false);
    if room < need {
        return Err(Refusal::BufferTooSmall);
    }
    Ok(need as u16)
}

// One order more, which is number i from 0: it is measured into what the destination has left, but a call that is refused stays so.
fn next_order(
    m: OrderReport,
    h: Head,
    len: &[u16; 48],
    begin: i32,
    end: i32,
    room: usize,
    i: usize,
) -> OrderReport
    requires collector { framed (bare h len.now) ≡ true }
    requires few { (i < 48) × (room ≤ 65535) × (natural m.number ≤ room) }
    ensures { (store : List ℕ) → least_store ≤ length store → (c : Cutting) → m ≡ order_report c
        → ((t : ℕ) → m.number ≡ pos t → done c ≡ i)
        → result ≡ order_report (next (upper_six h.toc) (held (bare h len.now) store) room begin end c) }
{
    let Some(used) = opus_defines::count_of(m.number) else {
        return m;
    };
    let a = need_of(h, len, begin, end, room - used);
    let Ok(n) = a else {
        return order_report(a, i + 1);
    };
    order_report(Ok((used + wide(n)) as u16), 0)
}

// How many of n orders are to be gone through.
fn turns_of(m: OrderReport, n: usize) -> usize
    ensures { result ≡ turns m.number n }
{
    let Some(_) = opus_defines::count_of(m.number) else {
        return 0;
    };
    n
}

// Writes the packet of the frames b..e of a collector to the front of `data`, which has room for it.
fn put_range(h: Head, len: &[u16], store: &[u8], b: usize, e: usize, data: &mut [u8]) -> usize
    requires collector { (length len.now ≡ 48) × (framed (bare h len.now) ≡ true) }
    requires range { (b < e) × (e ≤ h.nb_frames) }
    requires store { least_store ≤ length store.now }
    requires room { length (compact false (upper_six h.toc) (range b e (held (bare h len.now) store.now))) ≤ length «data».old }
    ensures length { result ≡ length (compact false (upper_six h.toc) (range b e (held (bare h len.now) store.now))) }
    ensures bytes { «data».new
        ≡ sets «data».old 0 (compact false (upper_six h.toc) (range b e (held (bare h len.now) store.now))) }
{
    let before = collector::total_16(&len[..b]);
    opus_header::put_compact(data, h.toc, &len[b..e], store, wide(before), false)
}

// The single output of an order that the first pass has not refused, into what the destination has left behind its first `at` bytes; answers its length.
// No test is made a second time.
fn put_order(
    h: Head,
    len: &[u16; 48],
    store: &[u8],
    begin: i32,
    end: i32,
    data: &mut [u8],
    at: u32,
) -> u32
    requires collector { framed (bare h len.now) ≡ true }
    requires buffers { (least_store ≤ length store.now) × (length «data».old ≤ 65535) × (at ≤ length «data».old) }
    requires taken { (e : Refusal)
        → out_frames false false (upper_six h.toc) (held (bare h len.now) store.now) begin end (length «data».old - at) ≡ refusal e → ⊥ }
    ensures length { result
        ≡ natural (leaves (drop at «data».old)
        (out_frames false false (upper_six h.toc) (held (bare h len.now) store.now) begin end (length «data».old - at))
        ).report.number }
    ensures bytes { «data».new
        ≡ take at «data».old ++ (leaves (drop at «data».old)
        (out_frames false false (upper_six h.toc) (held (bare h len.now) store.now) begin end (length «data».old - at))
        ).bytes }
{
    let from = at as usize;
    let n = put_range(
        h,
        len,
        store,
        begin as usize,
        end as usize,
        &mut data[from..],
    );
    n as u32
}

// The orders one by one, twice: the first pass only measures, since a late refusal leaves the list and the destination as they were; the second one is the
// single output of each, which gives the lengths.
pub fn out_many_lent(
    h: Head,
    len: &[u16; 48],
    packet: &[u8; 48],
    store: &[u8],
    orders: &mut [Order],
    data: &mut [u8],
) -> OrderReport
    ensures { (result
        ≡ (out_many (collector_of h len.now packet.now) store.now orders.old «data».old).report)
        × (orders.new
        ≡ (out_many (collector_of h len.now packet.now) store.now orders.old «data».old).orders)
        × («data».new
        ≡ (out_many (collector_of h len.now packet.now) store.now orders.old «data».old).bytes) }
{
    let room = data.len();
    let mut m = begin_orders(h, len, packet, store.len(), room, orders.len());
    let n = turns_of(m, orders.len());
    for i in 0..n {
        m = next_order(m, h, len, orders[i].begin, orders[i].end, room, i);
    }
    let all = turns_of(m, n);
    let mut at: u32 = 0;
    for k in 0..all {
        let l = put_order(h, len, store, orders[k].begin, orders[k].end, data, at);
        orders[k].length = l;
        at += l;
    }
    m
}

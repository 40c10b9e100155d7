// The collector, lent to each call and updated there, as in the crate; exported. Each call takes it by reference, reads its head, and lends its lengths and
// numbers on to the core. Both adds are one function.
ghost use Rattle.std.specs.Prelude.{◌≡◌, false};
ghost use Rattle.opus_defines.specs.Numbers.{number_of};
ghost use Rattle.collector.specs.Collector.{empty, nb_frames_held};
ghost use Rattle.repacketizer.specs.Adding.{added_report, added, added_strictly, added_by};
ghost use Rattle.repacketizer_out.specs.Output.{out_range, out_all};
ghost use Rattle.repacketizer_out.specs.Numbered.{out_numbered};
ghost use Rattle.cut_orders.specs.Orders.{out_many};
ghost use Rattle.aveluafi.specs.Words.{report_in};

use crate::word;
use collector::{Head, OpusRepacketizer};
use cut_orders::{Order, OrderReport};
use opus_defines::Report;

// A reset: any collector, sound or not, becomes empty.
#[unsafe(no_mangle)]
pub extern "C" fn aveluafi_repacketizer_init(rp: &mut OpusRepacketizer)
    ensures { rp.new ≡ empty }
{
    rp.toc = 0;
    rp.nb_frames = 0;
    rp.framesize = opus_toc::Samples8k(0);
    rp.len = [0u16; 48];
    rp.packet = [0u8; 48];
}

// Adds an ordinary packet, strictly or not. One function for both kinds: with two the core would have two callers and be compiled as a function of its
// own, which costs an add more than the flag. The packet's slice is read before anything is stored, so that it comes in registers; the report goes back in
// one (word.rt).
fn cat_by(rp: &mut OpusRepacketizer, data: &[u8], store: &mut [u8], strict: bool) -> u64
    ensures { (report_in result ≡ added_report (added_by strict false rp.old «data».now store.old).answer)
        × (rp.new ≡ (added_by strict false rp.old «data».now store.old).answer.rp)
        × (store.new ≡ (added_by strict false rp.old «data».now store.old).store) }
{
    let h = Head {
        toc: rp.toc,
        nb_frames: rp.nb_frames,
        framesize: rp.framesize,
    };
    let d = &data[..];
    let a = repacketizer::add(h, &mut rp.len, &mut rp.packet, d, false, strict, store);
    rp.toc = a.toc;
    rp.nb_frames = a.count as u16;
    rp.framesize = a.framesize;
    word::verdict_word(a.verdict)
}

// Adds an ordinary packet, and answers 0; a refusal of the reader with rule and place.
#[unsafe(no_mangle)]
pub extern "C" fn aveluafi_repacketizer_cat(
    rp: &mut OpusRepacketizer,
    data: &[u8],
    store: &mut [u8],
) -> Report
    ensures { (result ≡ added_report (added false rp.old «data».now store.old).answer)
        × (rp.new ≡ (added false rp.old «data».now store.old).answer.rp)
        × (store.new ≡ (added false rp.old «data».now store.old).store) }
{
    word::report_in(cat_by(rp, data, store, false))
}

// The same, but that a packet with a padding byte other than zero is refused by -20, last of all (document 02, M-105).
#[unsafe(no_mangle)]
pub extern "C" fn aveluafi_repacketizer_cat_strict(
    rp: &mut OpusRepacketizer,
    data: &[u8],
    store: &mut [u8],
) -> Report
    ensures { (result ≡ added_report (added_strictly false rp.old «data».now store.old).answer)
        × (rp.new ≡ (added_strictly false rp.old «data».now store.old).answer.rp)
        × (store.new ≡ (added_strictly false rp.old «data».now store.old).store) }
{
    word::report_in(cat_by(rp, data, store, true))
}

// The frames held.
#[unsafe(no_mangle)]
pub extern "C" fn aveluafi_repacketizer_get_nb_frames(rp: &OpusRepacketizer) -> i32
    ensures { result ≡ number_of (nb_frames_held rp.now) }
{
    let h = Head {
        toc: rp.toc,
        nb_frames: rp.nb_frames,
        framesize: rp.framesize,
    };
    collector::nb_frames(h, &rp.len, &rp.packet)
}

// Writes the frames begin..end as one packet in the named delimiting, which fills `data` where padding is asked for, and answers its bytes.
#[unsafe(no_mangle)]
pub extern "C" fn aveluafi_repacketizer_out_range_impl(
    rp: &OpusRepacketizer,
    store: &[u8],
    begin: i32,
    end: i32,
    data: &mut [u8],
    self_delimited: bool,
    pad: bool,
) -> i32
    ensures { (result ≡ (out_range self_delimited pad rp.now store.now begin end «data».old).report.number)
        × («data».new ≡ (out_range self_delimited pad rp.now store.now begin end «data».old).bytes) }
{
    let h = Head {
        toc: rp.toc,
        nb_frames: rp.nb_frames,
        framesize: rp.framesize,
    };
    repacketizer_out::out_lent(
        h,
        &rp.len,
        &rp.packet,
        store,
        begin,
        end,
        data,
        self_delimited,
        pad,
    )
}

// The same, ordinary and without padding.
#[unsafe(no_mangle)]
pub extern "C" fn aveluafi_repacketizer_out_range(
    rp: &OpusRepacketizer,
    store: &[u8],
    begin: i32,
    end: i32,
    data: &mut [u8],
) -> i32
    ensures { (result ≡ (out_range false false rp.now store.now begin end «data».old).report.number)
        × («data».new ≡ (out_range false false rp.now store.now begin end «data».old).bytes) }
{
    aveluafi_repacketizer_out_range_impl(rp, store, begin, end, data, false, false)
}

// All frames held.
#[unsafe(no_mangle)]
pub extern "C" fn aveluafi_repacketizer_out(
    rp: &OpusRepacketizer,
    store: &[u8],
    data: &mut [u8],
) -> i32
    ensures { (result ≡ (out_all rp.now store.now «data».old).report.number)
        × («data».new ≡ (out_all rp.now store.now «data».old).bytes) }
{
    aveluafi_repacketizer_out_range_impl(rp, store, 0, rp.nb_frames as i32, data, false, false)
}

// The frames that came in the accepted packet with this number, from 0 since the collector was last empty (document 02, M-107).
#[unsafe(no_mangle)]
pub extern "C" fn aveluafi_repacketizer_out_packet(
    rp: &OpusRepacketizer,
    store: &[u8],
    number: i32,
    data: &mut [u8],
) -> i32
    ensures { (result ≡ (out_numbered rp.now store.now number «data».old).report.number)
        × («data».new ≡ (out_numbered rp.now store.now number «data».old).bytes) }
{
    // The proof knows that a field behind a reference is a byte where the body reads it.
    let _toc = rp.toc;
    let r = repacketizer_out::by_number::range_of(rp.nb_frames, &rp.packet, number);
    aveluafi_repacketizer_out_range_impl(rp, store, r.begin, r.end, data, false, false)
}

// A list of cut orders: their packets one behind another, ordinary and without padding, and each order gets its length (document 02, M-106).
#[unsafe(no_mangle)]
pub extern "C" fn aveluafi_repacketizer_out_many(
    rp: &OpusRepacketizer,
    store: &[u8],
    orders: &mut [Order],
    data: &mut [u8],
) -> OrderReport
    ensures { (result ≡ (out_many rp.now store.now orders.old «data».old).report)
        × (orders.new ≡ (out_many rp.now store.now orders.old «data».old).orders)
        × («data».new ≡ (out_many rp.now store.now orders.old «data».old).bytes) }
{
    let h = Head {
        toc: rp.toc,
        nb_frames: rp.nb_frames,
        framesize: rp.framesize,
    };
    cut_orders::out_many_lent(h, &rp.len, &rp.packet, store, orders, data)
}

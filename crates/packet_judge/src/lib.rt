// The judge of packets (document 02, M-110): unreadable, with rule and place; dirty padding; longer than needed, with the least length; or clean.
#![tactic(auto)]

ghost use Rattle.std.specs.Prelude.{◌≡◌, ℕ, ◌+◌, ◌<◌, ◌≤◌, ◌^◌, length};
ghost use Rattle.opus_size.specs.Size.{most_bytes};
ghost use Rattle.opus_format.specs.Frames.{total, longest};
ghost use Rattle.opus_format.specs.Reading.{accepted};
ghost use Rattle.packet_judge.specs.Judging.{unread, said, judge_read, judged as Judging·judged, least_read, least_length};
ghost use Rattle.packet_judge.specs.Tallies.{tallied as Tallies·tallied, sum_of};

use opus::Short;
use opus_defines::{Refusal, Rule, wide};

// What a packet is judged to be.
#[derive(Clone, Copy, Debug, PartialEq, Eq)]
pub enum Judged {
    // It is too long to be looked at.
    Refused(Refusal),
    // The rule of RFC 6716 that it breaks, and the place of the first byte of the field concerned.
    Unreadable(Rule, usize),
    // A padding byte is not zero.
    Dirty,
    // Its frames and upper six TOC bits fit in so many bytes, which are fewer than it takes.
    Longer(usize),
    Clean,
}

// A verdict, and the bytes of the compact packet; of one that cannot be read, or is too long, its own.
#[derive(Clone, Copy)]
pub struct Weighed {
    pub verdict: Judged,
    pub least: usize,
}

// How many verdicts of each kind there were.
#[derive(Clone, Copy)]
pub struct Tally {
    pub unreadable: usize,
    pub dirty: usize,
    pub longer: usize,
    pub clean: usize,
}

// The verdict on a packet that the reader refuses.
fn refused(e: Refusal) -> Judged
    ensures { result ≡ unread e }
{
    let Refusal::Unreadable(rule, place) = e else {
        return Judged::Refused(e);
    };
    Judged::Unreadable(rule, wide(place))
}

// The verdict on a packet that was read, by whether its padding is dirty, the least length and the bytes that it takes.
fn verdict(dirt: bool, least: usize, taken: usize) -> Judged
    ensures { result ≡ said dirt least taken }
{
    if dirt {
        return Judged::Dirty;
    }
    if least < taken {
        return Judged::Longer(least);
    }
    Judged::Clean
}

// The same from the bytes: frames of lengths `ns` from `first` on, and `taken` bytes in all. No TOC byte makes a difference.
fn weigh_read(data: &[u8], self_delimited: bool, ns: &[u16], first: usize, taken: usize) -> Weighed
    requires some { (1 ≤ length ns.now) × (length ns.now ≤ 48) × (longest ns.now ≤ most_bytes) }
    requires block { (first + total ns.now ≤ taken) × (taken ≤ length «data».now) }
    ensures verdict { (toc : ℕ) → result.verdict
        ≡ judge_read self_delimited «data».now (accepted toc ns.now first taken) }
    ensures least { (toc : ℕ) → result.least
        ≡ least_read self_delimited «data».now (accepted toc ns.now first taken) }
{
    let m = opus_header::sums_of(ns);
    let from = first + m.total;
    let dirt = padding::dirt_in(&data[from..taken]);
    let least = opus_header::compact_bytes(ns.len(), m, self_delimited);
    Weighed {
        verdict: verdict(dirt, least, taken),
        least,
    }
}

// Reads any packet, and judges it.
fn weigh_whole(data: &[u8], self_delimited: bool) -> Weighed
    ensures verdict { result.verdict ≡ Judging·judged self_delimited «data».now }
    ensures least { result.least ≡ least_length self_delimited «data».now }
{
    let mut lengths = [0u16; 48];
    match opus::read_into(data, self_delimited, &mut lengths) {
        Ok(p) => weigh_read(
            data,
            self_delimited,
            &lengths[..p.count as usize],
            p.first,
            p.taken,
        ),
        Err(e) => Weighed {
            verdict: refused(e),
            least: data.len(),
        },
    }
}

// Judges a packet as `judge_packet` does, and answers its least length beside the verdict, by one reading.
// An ordinary one of code 0, 1 or 2 has no padding, and is read without an array: only two frames of one length in code 2 are longer than needed.
pub fn weigh_packet(data: &[u8], self_delimited: bool) -> Weighed
    ensures verdict { result.verdict ≡ Judging·judged self_delimited «data».now }
    ensures least { result.least ≡ least_length self_delimited «data».now }
{
    if self_delimited {
        return weigh_whole(data, true);
    }
    let s = opus::short_at(data);
    match s {
        Short::One(_, _) => Weighed {
            verdict: Judged::Clean,
            least: data.len(),
        },
        Short::Two(m, n, _) => {
            if m != n {
                return Weighed {
                    verdict: Judged::Clean,
                    least: data.len(),
                };
            }
            let least = 1 + 2 * n as usize;
            Weighed {
                verdict: verdict(false, least, data.len()),
                least,
            }
        }
        Short::Broken(rule, place) => {
            if opus::MOST_PACKET < data.len() {
                return Weighed {
                    verdict: Judged::Refused(Refusal::BadArg),
                    least: data.len(),
                };
            }
            Weighed {
                verdict: Judged::Unreadable(rule, place),
                least: data.len(),
            }
        }
        Short::Counted => weigh_whole(data, false),
    }
}

// Judges the packet at the front of `data`, which in the ordinary form is all of it. What stands behind a self-delimited packet is no part of it.
pub fn judge_packet(data: &[u8], self_delimited: bool) -> Judged
    ensures { result ≡ Judging·judged self_delimited «data».now }
{
    let w = weigh_packet(data, self_delimited);
    w.verdict
}

// One verdict more.
pub fn tallied(j: Judged, t: Tally) -> Tally
    requires { sum_of t + 1 < 2 ^ 64 }
    ensures { result ≡ Tallies·tallied j t }
{
    match j {
        Judged::Refused(_) => t,
        Judged::Unreadable(_, _) => Tally {
            unreadable: t.unreadable + 1,
            dirty: t.dirty,
            longer: t.longer,
            clean: t.clean,
        },
        Judged::Dirty => Tally {
            unreadable: t.unreadable,
            dirty: t.dirty + 1,
            longer: t.longer,
            clean: t.clean,
        },
        Judged::Longer(_) => Tally {
            unreadable: t.unreadable,
            dirty: t.dirty,
            longer: t.longer + 1,
            clean: t.clean,
        },
        Judged::Clean => Tally {
            unreadable: t.unreadable,
            dirty: t.dirty,
            longer: t.longer,
            clean: t.clean + 1,
        },
    }
}

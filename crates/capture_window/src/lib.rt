// Captures of any size, read part by part (beyond document 02): how much of what is held of a file can be told, when more may follow.
//
// What stands at a place is told by its next 65,540 bytes, the longest record. Before the end of the file is known, 'none stands here' may be said only of a
// place behind which so many are held: a record whose end is not held yet would else be missed, and marks inside it be taken for records.
#![tactic(auto)]

ghost use Rattle.std.specs.Prelude.{◌≡◌, ◌-◌, max};
ghost use Rattle.capture_window.specs.Window.{settled as Window·settled};

use capture::HEAD_BYTES;

// The bytes of the longest record: its head and a packet of 65,535 bytes.
pub const WINDOW: usize = 65540;

// Of `held` bytes, of which no record stands in those from `at` on: the first place that has to be looked at again, behind which fewer are held than a window.
pub fn short_from(held: usize, at: usize) -> usize
    ensures { result ≡ max at (held - 65539) }
{
    at.max(held.saturating_sub(WINDOW - 1))
}

// How many bytes at the front of what is held are settled: they can be read as a capture of their own, and what is behind them as one with what follows.
#[tactic(auto, using(crate::proofs::Settling::settling))]
pub fn settled(data: &[u8]) -> usize
    ensures { result ≡ Window·settled «data».now }
{
    let mut at: usize = 0;
    loop {
        let n = capture::packet_length(data, at);
        if n != 0 {
            at += HEAD_BYTES + n;
        } else {
            let r = capture::next_record(data, at);
            let place = r.place;
            // none stands at the place before: that may be said only with a window behind it
            if data.len() - place < WINDOW - 1 {
                return short_from(data.len(), at);
            }
            at = place;
        }
    }
}

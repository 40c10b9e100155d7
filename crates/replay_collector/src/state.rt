// A collector that need not be sound, and its store: read from a case, and put behind its line.
ghost use Rattle.std.specs.Prelude.{◌≤◌, length};
ghost use Rattle.replay_io.specs.declared.TheConstants.{MOST};

use collector::OpusRepacketizer;
use opus_defines::{OPUS_OK, Report, verdict_report};
use opus_toc::Samples8k;
use repacketizer::opus_repacketizer_cat;
use repacketizer::strict::opus_repacketizer_cat_strict;
use replay_io::{MOST, Malformed, Replay, UNSET};
use std::io::Read;

// The collector, and how many bytes its store has.
#[derive(Clone, Copy)]
pub struct State {
    pub rp: OpusRepacketizer,
    pub size: usize,
    ghost within: { size ≤ MOST },
}

impl State {
    // Adds a packet, strictly or not.
    pub fn add(&mut self, packet: &[u8], store: &mut [u8; MOST], strict: bool) -> Report {
        let store = &mut store[..self.size];
        let added = if strict {
            opus_repacketizer_cat_strict(self.rp, packet, store)
        } else {
            opus_repacketizer_cat(self.rp, packet, store)
        };
        self.rp = added.rp;
        verdict_report(OPUS_OK, added.verdict)
    }
}

// With `numbered` set, each frame's packet number stands behind its length.
pub fn read_state<R: Read + Drop>(
    case: &mut Replay<R>,
    numbered: bool,
) -> Result<State, Malformed> {
    let mut rp = collector::opus_repacketizer_init();
    rp.toc = case.input.u8()?;
    rp.nb_frames = case.input.u16()?;
    rp.framesize = Samples8k(case.input.u16()?);
    let n = case.input.u8()? as usize;
    if rp.len.len() < n {
        return Err(Malformed);
    }
    for i in 0..n {
        rp.len[i] = case.input.u16()?;
        if numbered {
            rp.packet[i] = case.input.u8()?;
        }
    }
    let size = case.input.length()?;
    let front = case.input.bytes(&mut case.store)?.len();
    if size < front {
        return Err(Malformed);
    }
    case.store[front..size].fill(UNSET);
    Ok(State { rp, size })
}

// How many bytes stand before the unset ones at the end.
fn set_bytes(store: &[u8]) -> usize
    ensures { result ≤ length store.now }
{
    store
        .iter()
        .rposition(|b| *b != UNSET)
        .map_or(0, |last| last + 1)
}

// The collector, with its packet numbers where they are asked for, and its store.
pub fn put_state<R: Read + Drop>(case: &mut Replay<R>, s: &State, numbered: bool) {
    let out = &mut case.out;
    out.text(b"; ");
    out.decimal(s.rp.toc as usize);
    out.field(s.rp.nb_frames as usize);
    out.field(s.rp.framesize.0 as usize);
    out.sizes(&s.rp.len);
    if numbered {
        for n in &s.rp.packet {
            out.field(*n as usize);
        }
    }
    out.text(b" ; ");
    let store = &case.store[..s.size];
    out.buffer(&store[..set_bytes(store)]);
}

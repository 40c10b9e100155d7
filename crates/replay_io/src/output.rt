// The lines of the answers, in a buffer that is written where it is nearly full.
ghost use Rattle.std.specs.Prelude.{◌≡◌, ℕ, ◌<◌, ◌≤◌, List, [], ◌∷◌, ◌++◌, length, take, OnOk};
ghost use Rattle.replay_io.specs.declared.output.TheConstants.{ROOM};
ghost use Rattle.opus_defines.specs.Numbers.{refusal_number};
ghost use Rattle.show.specs.Text.{decimal as Text·decimal, integer};
ghost use Rattle.replay_io.specs.Lines.{Puts, field, fields, report, hex_digit, buffer};

use opus_defines::{Refusal, Report};
use std::marker::Model;
use stdio::WriteFailed;

// The output is written once it holds so many bytes.
const FULL: usize = 65536;

// A line has fewer than 270,000 bytes.
const ROOM: usize = 335872;

#[derive(Drop)]
pub struct Output {
    bytes: [u8; ROOM],
    end: usize,
}

// Clauses see the bytes that are not written yet.
impl Model for Output {
    ghost Value = { List ℕ };

    ghost view = { λ o. take o.end o.bytes };

    ghost invariant = { λ o. o.end ≤ ROOM };
}

impl Output {
    pub fn new() -> Self
        ensures { result ≡ [] }
    {
        Output {
            bytes: [0; ROOM],
            end: 0,
        }
    }

    pub fn put(&mut self, b: u8)
        ensures { Puts self.old self.new (b ∷ []) }
    {
        if self.end < ROOM {
            self.bytes[self.end] = b;
            self.end += 1;
        }
    }

    // Two bytes: the end is kept in memory, and is read and stored once for both.
    fn pair(&mut self, a: u8, b: u8)
        ensures { Puts self.old self.new (a ∷ b ∷ []) }
    {
        if self.end + 2 <= ROOM {
            self.bytes[self.end] = a;
            self.bytes[self.end + 1] = b;
            self.end += 2;
        }
    }

    pub fn text(&mut self, s: &[u8])
        ensures { Puts self.old self.new s.now }
    {
        let n = s.len().min(ROOM - self.end);
        self.bytes[self.end..self.end + n].copy_from_slice(&s[..n]);
        self.end += n;
    }

    // ---- numbers

    // Most of what is put are these: the digits go from where io writes them straight to the line.
    pub fn decimal(&mut self, n: usize)
        ensures { Puts self.old self.new (Text·decimal n) }
    {
        let mut digits = [0u8; 20];
        let k = io::decimal(n as u64, &mut digits);
        self.text(&digits[..k]);
    }

    // A number that a call returned.
    pub fn number(&mut self, n: i32)
        ensures { Puts self.old self.new (integer n) }
    {
        self.text(show::number_text(n).as_bytes());
    }

    pub fn refusal(&mut self, e: Refusal)
        ensures { Puts self.old self.new (integer (refusal_number e)) }
    {
        self.number(opus_defines::refusal_number(e));
    }

    // A number behind a space.
    pub fn field(&mut self, n: usize)
        ensures { Puts self.old self.new (field n) }
    {
        self.put(b' ');
        self.decimal(n);
    }

    // Number, rule and place.
    pub fn report(&mut self, r: Report)
        ensures { Puts self.old self.new (report r) }
    {
        self.number(r.number);
        self.field(r.rule as usize);
        self.field(r.place as usize);
    }

    // Each behind a space.
    #[tactic(auto, using(crate::proofs::Items::items_more))]
    pub fn sizes(&mut self, lengths: &[u16])
        ensures { Puts self.old self.new (fields lengths.now) }
    {
        for n in lengths {
            self.field(*n as usize);
        }
    }

    // ---- buffers

    #[tactic(auto, using(crate::proofs::Items::items_more))]
    pub fn buffer(&mut self, s: &[u8])
        ensures { Puts self.old self.new (buffer s.now) }
    {
        if s.is_empty() {
            self.put(b'-');
        }
        for b in s {
            self.pair(hex_digit(b / 16), hex_digit(b % 16));
        }
    }

    pub fn number_and_buffer(&mut self, n: i32, s: &[u8])
        ensures { Puts self.old self.new (integer n ++ 32 ∷ buffer s.now) }
    {
        self.number(n);
        self.put(b' ');
        self.buffer(s);
    }

    pub fn report_and_buffer(&mut self, r: Report, s: &[u8])
        ensures { Puts self.old self.new (report r ++ 32 ∷ buffer s.now) }
    {
        self.report(r);
        self.put(b' ');
        self.buffer(s);
    }

    // ---- lines

    // Where a line begins, which `take_back` is given.
    pub fn mark(&self) -> usize
        ensures { result ≡ length self.now }
    {
        self.end
    }

    // Takes back what was put behind a mark.
    pub fn take_back(&mut self, mark: usize)
        ensures { self.new ≡ take mark self.old }
    {
        self.end = self.end.min(mark);
    }

    // Writes all; a write that fails is told.
    pub fn flush(&mut self) -> Result<(), WriteFailed>
        ensures { OnOk result (self.new ≡ []) }
    {
        stdio::print(&self.bytes[..self.end])?;
        self.end = 0;
        Ok(())
    }

    // Writes the output where it is nearly full.
    pub fn flush_full(&mut self) -> Result<(), WriteFailed>
        ensures { OnOk result (length self.new < FULL) }
    {
        if self.end < FULL {
            return Ok(());
        }
        self.flush()
    }
}

fn hex_digit(d: u8) -> u8
    requires { d < 16 }
    ensures { result ≡ hex_digit d }
{
    if d < 10 { b'0' + d } else { b'a' + (d - 10) }
}

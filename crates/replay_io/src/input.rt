// The fields of a case, read through a buffer that is filled again as need be.
ghost use Rattle.std.specs.Prelude.{◌<◌, ◌≤◌, ◌^◌, length, IfOk};
ghost use Rattle.replay_io.specs.declared.input.TheConstants.{READ};

use crate::{MOST, Malformed};
use std::io::Read;

// How many bytes are read at once.
const READ: usize = 65536;

// The input: the bytes of the buffer that are not used yet, and how many have come so far.
#[derive(Drop)]
pub struct Input<R> {
    from: R,
    buffer: [u8; READ],
    at: usize,
    end: usize,
    came: usize,
    ghost ordered: { at ≤ end },
    ghost within: { end ≤ READ },
}

impl<R: Read + Drop> Input<R> {
    pub fn new(from: R) -> Self {
        Input {
            from,
            buffer: [0; READ],
            at: 0,
            end: 0,
            came: 0,
        }
    }

    // Fills the buffer again. A read that fails is told, and ends the input besides.
    fn refill(&mut self) {
        let n = match stdio::read_more(&mut self.from, &mut self.buffer, 0) {
            Ok(n) => n,
            Err(_) => {
                stdio::tell_read_failed(self.came);
                0
            }
        };
        self.at = 0;
        self.end = n;
        self.came = self.came.saturating_add(n);
    }

    // Fills a buffer from the input.
    pub fn read_exact(&mut self, to: &mut [u8]) -> Result<(), Malformed> {
        let mut done: usize = 0;
        while done < to.len() {
            if self.at == self.end {
                self.refill();
            }
            let k = (self.end - self.at).min(to.len() - done);
            if k == 0 {
                return Err(Malformed);
            }
            to[done..done + k].copy_from_slice(&self.buffer[self.at..self.at + k]);
            self.at += k;
            done += k;
        }
        Ok(())
    }

    fn array<const N: usize>(&mut self) -> Result<[u8; N], Malformed> {
        let mut bytes = [0; N];
        self.read_exact(&mut bytes)?;
        Ok(bytes)
    }

    // ---- numbers, low byte first

    pub fn u8(&mut self) -> Result<u8, Malformed> {
        let [n] = self.array::<1>()?;
        Ok(n)
    }

    pub fn u16(&mut self) -> Result<u16, Malformed> {
        Ok(u16::from_le_bytes(self.array()?))
    }

    pub fn i16(&mut self) -> Result<i16, Malformed> {
        Ok(i16::from_le_bytes(self.array()?))
    }

    pub fn u32(&mut self) -> Result<u32, Malformed> {
        Ok(u32::from_le_bytes(self.array()?))
    }

    pub fn i32(&mut self) -> Result<i32, Malformed> {
        Ok(i32::from_le_bytes(self.array()?))
    }

    pub fn flag(&mut self) -> Result<bool, Malformed> {
        Ok(self.u8()? != 0)
    }

    // A number of four bytes, which is not above `most`.
    fn up_to(&mut self, most: usize) -> Result<usize, Malformed>
        ensures { IfOk result (λ n. n ≤ most) }
    {
        let n = self.u32()? as usize;
        if most < n {
            return Err(Malformed);
        }
        Ok(n)
    }

    // A room or a length.
    pub fn length(&mut self) -> Result<usize, Malformed>
        ensures { IfOk result (λ n. n ≤ MOST) }
    {
        self.up_to(MOST)
    }

    // A number that is not negative.
    pub fn natural(&mut self) -> Result<usize, Malformed>
        ensures { IfOk result (λ n. n < 2 ^ 31) }
    {
        self.up_to(i32::MAX as usize)
    }

    // ---- bytes behind their length

    // Puts them at the front of a buffer.
    pub fn buffer<'b>(&mut self, to: &'b mut [u8; MOST]) -> Result<&'b mut [u8], Malformed>
        ensures { IfOk result (λ s. length s.now ≤ MOST) }
    {
        let n = self.length()?;
        let bytes = &mut to[..n];
        self.read_exact(bytes)?;
        Ok(bytes)
    }

    // The same where they are only read.
    pub fn bytes<'b>(&mut self, to: &'b mut [u8; MOST]) -> Result<&'b [u8], Malformed>
        ensures { IfOk result (λ s. length s.now ≤ MOST) }
    {
        let n = self.length()?;
        self.read_exact(&mut to[..n])?;
        let bytes = &*to;
        Ok(&bytes[..n])
    }
}

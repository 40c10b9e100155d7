// A capture of any size, read part by part: each part can be read as a capture of its own (crate capture_window).
#![tactic(auto)]

ghost use Rattle.std.specs.Prelude.{◌≡◌, ◌-◌, ◌≤◌, length, IfOk, IfErr};
ghost use Rattle.blocks.specs.Blocks.{moved};
ghost use Rattle.capture_parts.specs.Part.{FilledIn, PartOf};

use std::io::Read;
use stdio::ReadFailed;

// What a buffer holds that was filled: whether the file ends with it, and how many bytes.
#[derive(Clone, Copy)]
pub struct Filled {
    pub last: bool,
    pub held: usize,
}

// Reads behind what is held until the buffer is full or the file ends.
pub fn fill<R: Read>(from: &mut R, buf: &mut [u8], held: usize) -> Result<Filled, ReadFailed>
    requires { held ≤ length buf.old }
    ensures length { length buf.new ≡ length buf.old }
    ensures filled { IfOk result (λ f. FilledIn buf.new f) }
    ensures failed { IfErr result (λ e. e.held ≤ length buf.new) }
{
    let held = stdio::read_on(from, buf, held)?;
    Ok(Filled {
        last: held < buf.len(),
        held,
    })
}

// A part at the front of a buffer: whether the file ends with it, the bytes that are held, and those of the part.
#[derive(Clone, Copy)]
pub struct Part {
    pub last: bool,
    pub held: usize,
    pub bytes: usize,
}

// Fills the buffer, and says how much of what is then held is a part: all of it at the end, before as much as is settled.
#[tactic(auto, using(crate::proofs::Told::read_parts))]
pub fn read_part<R: Read>(from: &mut R, buf: &mut [u8], held: usize) -> Result<Part, ReadFailed>
    requires { held ≤ length buf.old }
    ensures length { length buf.new ≡ length buf.old }
    ensures part { IfOk result (λ p. PartOf buf.new p) }
    ensures failed { IfErr result (λ e. e.held ≤ length buf.new) }
{
    let Filled { last, held } = fill(from, buf, held)?;
    let bytes = if last {
        held
    } else {
        capture_window::settled(buf)
    };
    Ok(Part { last, held, bytes })
}

// Moves what is held behind a part to the front, and answers how many bytes that are.
pub fn keep_rest(buf: &mut [u8], held: usize, part: usize) -> usize
    requires { (part ≤ held) × (held ≤ length buf.old) }
    ensures bytes { buf.new ≡ moved buf.old part 0 (held - part) }
    ensures held { result ≡ held - part }
{
    let n = held - part;
    blocks::moves::move_down(buf, part, 0, n);
    n
}

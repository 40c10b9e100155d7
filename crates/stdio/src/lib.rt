// Standard input and output of the programs. A read that failed is told from the end of the input, and a write that failed from one that was
// made: a line on standard error says so, where nothing else is ever written. A program has no exit status; the launcher looks at that line.
#![tactic(auto)]

ghost use Rattle.std.specs.Prelude.{◌≡◌, ◌++◌, ◌+◌, ◌<◌, ◌≤◌, length};
ghost use Rattle.std.proofs.lemmas.List.Edits.{sets};
ghost use Rattle.io.specs.Counts.{IsPrefixLen};
ghost use Rattle.stdio.specs.Reading.{GotIn, held_after};
ghost use Rattle.stdio.specs.Failures.{read_failed};

use show::{STDERR_FILENO, STDOUT_FILENO, TextBuf};
use std::io::{Read, Stdin};

// How often a read that failed is made again before it counts as failed. A program cannot see why it failed: one that a signal interrupted
// goes on, and one that fails for a reason fails so often.
const TRIES: usize = 8;

// A read that failed when so many bytes were held.
#[derive(Clone, Copy, Debug)]
pub struct ReadFailed {
    pub held: usize,
}

// Reads once behind what is held. There is room, so that no byte is the end of the input.
fn read_once<R: Read>(from: &mut R, buf: &mut [u8], held: usize) -> Result<usize, ReadFailed>
    requires { held < length buf.old }
    ensures length { length buf.new ≡ length buf.old }
    ensures got { GotIn (length buf.old) held result }
{
    from.read(&mut buf[held..]).map_err(|_| ReadFailed { held })
}

// The same, tried again where it failed.
pub fn read_more<R: Read>(from: &mut R, buf: &mut [u8], held: usize) -> Result<usize, ReadFailed>
    requires { held < length buf.old }
    ensures length { length buf.new ≡ length buf.old }
    ensures got { GotIn (length buf.old) held result }
{
    for _ in 0..TRIES {
        if let Ok(n) = read_once(from, buf, held) {
            return Ok(n);
        }
    }
    read_once(from, buf, held)
}

// The line on standard error for a read that failed when n bytes had come.
#[tactic(auto, unfolding(crate::specs::Failures::read_failed, crate::specs::Failures::read_label, crate::specs::Failures::bytes_label))]
fn build_read_failed<const N: usize>(text: &mut TextBuf<N>, n: usize)
    requires { length text.old + length (read_failed n) ≤ N }
    ensures { text.new ≡ text.old ++ read_failed n }
{
    text.put(b"aveluafi: reading standard input failed after ");
    text.put_decimal(n);
    text.put(b" bytes\n");
}

#[tactic(auto, using(crate::proofs::Line::line_most))]
pub fn put_read_failed(out: &mut [u8; 73], n: usize) -> usize
    ensures bytes { out.new ≡ sets out.old 0 (read_failed n) }
    ensures next { result ≡ length (read_failed n) }
    ensures within { IsPrefixLen result out.new }
{
    let mut text: TextBuf<73> = TextBuf::new();
    build_read_failed(&mut text, n);
    text.copy_to(out)
}

pub fn tell_read_failed(n: usize) {
    let mut out = [0u8; 73];
    let k = put_read_failed(&mut out, n);
    io::write_all(STDERR_FILENO, &out[..k]);
}

// The same for an input that has more bytes than a program counts.
pub fn tell_too_long() {
    io::write_all(STDERR_FILENO, b"aveluafi: standard input is too long\n");
}

// Reads behind what is held until the buffer is full or the input ends, and answers how many bytes are held then.
pub fn read_on<R: Read>(from: &mut R, buf: &mut [u8], start: usize) -> Result<usize, ReadFailed>
    requires { start ≤ length buf.old }
    ensures length { length buf.new ≡ length buf.old }
    ensures more { start ≤ held_after result }
    ensures within { IsPrefixLen (held_after result) buf.new }
{
    let mut held = start;
    while held < buf.len() {
        let n = read_more(from, buf, held)?;
        if n == 0 {
            break;
        }
        held += n;
    }
    Ok(held)
}

// The same of standard input, from the front of a buffer; where that fails it is told.
pub fn read_all(from: &mut Stdin, buf: &mut [u8]) -> Result<usize, ReadFailed>
    ensures { IsPrefixLen (held_after result) buf.new }
{
    read_on(from, buf, 0).inspect_err(|failed| tell_read_failed(failed.held))
}

// A write to standard output that failed, which was told.
#[derive(Clone, Copy, Debug)]
pub struct WriteFailed;

// Writes a text, and tells where that fails.
pub fn print(s: &[u8]) -> Result<(), WriteFailed> {
    if io::write_all(STDOUT_FILENO, s) {
        return Ok(());
    }
    io::write_all(STDERR_FILENO, b"aveluafi: writing standard output failed\n");
    Err(WriteFailed)
}

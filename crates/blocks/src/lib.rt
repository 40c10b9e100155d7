// Blocks of bytes copied, filled, and moved within a buffer. Each contract is one equation on the whole buffer.
//
// Bytes are copied and moved in pieces, each read whole into a buffer before any of it is written. Of a piece whose width is a constant the compiler
// makes wide loads and stores, of any other one call of memmove, and leaves the buffer out; where it does not, bench/run --stack shows it. A block of up
// to 128 bytes is two pieces of one width, of which the last may lie partly over the first.
#![tactic(auto)]

pub mod moves;

ghost use Rattle.std.specs.Prelude.{◌≡◌, ◌+◌, ◌≤◌, length};
ghost use Rattle.blocks.specs.Blocks.{filled, copied};

// Copies the n bytes of `src` at `from` to `dst` at `at`, one after the other.
pub fn copy_bytes(dst: &mut [u8], at: usize, src: &[u8], from: usize, n: usize)
    requires { (at + n ≤ length dst.old) × (from + n ≤ length src.now) }
    ensures { dst.new ≡ copied dst.old at src.now from n }
{
    dst[at..at + n].copy_from_slice(&src[from..from + n]);
}

// The same for a piece of k bytes.
fn copy_piece(dst: &mut [u8], at: usize, src: &[u8], from: usize, k: usize)
    requires { (k ≤ 65536) × (at + k ≤ length dst.old) × (from + k ≤ length src.now) }
    ensures { dst.new ≡ copied dst.old at src.now from k }
{
    let mut piece = [0u8; 65536];
    copy_bytes(&mut piece, 0, src, from, k);
    copy_bytes(dst, at, &piece, 0, k);
}

// Copies n bytes as two pieces of k, the first and the last.
fn copy_ends(dst: &mut [u8], at: usize, src: &[u8], from: usize, n: usize, k: usize)
    requires { (k ≤ 64) × (k ≤ n) × (n ≤ k + k) × (at + n ≤ length dst.old) × (from + n ≤ length src.now) }
    ensures { dst.new ≡ copied dst.old at src.now from n }
{
    let end = n - k;
    copy_piece(dst, at, src, from, k);
    copy_piece(dst, at + end, src, from + end, k);
}

// Copies up to 128 bytes.
fn copy_short(dst: &mut [u8], at: usize, src: &[u8], from: usize, n: usize)
    requires { (n ≤ 128) × (at + n ≤ length dst.old) × (from + n ≤ length src.now) }
    ensures { dst.new ≡ copied dst.old at src.now from n }
{
    if 64 < n {
        copy_ends(dst, at, src, from, n, 64);
    } else if 32 < n {
        copy_ends(dst, at, src, from, n, 32);
    } else if 16 < n {
        copy_ends(dst, at, src, from, n, 16);
    } else if 8 < n {
        copy_ends(dst, at, src, from, n, 8);
    } else if 4 < n {
        copy_ends(dst, at, src, from, n, 4);
    } else if 2 < n {
        copy_ends(dst, at, src, from, n, 2);
    } else if 0 < n {
        copy_ends(dst, at, src, from, n, 1);
    }
}

// Writes `value` into the n bytes at `from`.
pub fn fill(s: &mut [u8], from: usize, n: usize, value: u8)
    requires { from + n ≤ length s.old }
    ensures { s.new ≡ filled s.old from n value }
{
    s[from..from + n].fill(value);
}

// Copies n bytes, more than 128 of them in pieces of `most` and a last one.
fn copy_pieces(dst: &mut [u8], at: usize, src: &[u8], from: usize, n: usize, most: usize)
    requires { (1 ≤ most) × (most ≤ 65536) × (at + n ≤ length dst.old) × (from + n ≤ length src.now) }
    ensures { dst.new ≡ copied dst.old at src.now from n }
{
    if n <= 128 {
        copy_short(dst, at, src, from, n);
        return;
    }
    let mut i: usize = 0;
    while most < n - i {
        copy_piece(dst, at + i, src, from + i, most);
        i += most;
    }
    copy_piece(dst, at + i, src, from + i, n - i);
}

// Copies the n bytes of `src` at `from` to `dst` at `at`. A block of a packet, at most 65,535 bytes, is one piece.
pub fn copy_into(dst: &mut [u8], at: usize, src: &[u8], from: usize, n: usize)
    requires { (at + n ≤ length dst.old) × (from + n ≤ length src.now) }
    ensures { dst.new ≡ copied dst.old at src.now from n }
{
    copy_pieces(dst, at, src, from, n, 65536);
}

// The same for one of many blocks that are copied one after the other out of memory. The pieces are short because glibc's memmove copies longer ones
// from their end where both places lie alike in their pages, and then memory is read at a third of the speed.
pub fn copy_run(dst: &mut [u8], at: usize, src: &[u8], from: usize, n: usize)
    requires { (at + n ≤ length dst.old) × (from + n ≤ length src.now) }
    ensures { dst.new ≡ copied dst.old at src.now from n }
{
    copy_pieces(dst, at, src, from, n, 256);
}

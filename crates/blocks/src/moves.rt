// Blocks of bytes moved within one buffer, in pieces that are read whole before any of them is written. Each contract is one
// equation on the whole buffer. A piece has at most 2,048 bytes: glibc moves more than 2,112 by a string instruction on some processors, which is slow
// where the two places overlap.
ghost use Rattle.std.specs.Prelude.{◌≡◌, ◌+◌, ◌≤◌, length};
ghost use Rattle.blocks.specs.Blocks.{moved};

use crate::copy_bytes;

// Moves a piece of k bytes, either way.
fn move_piece(s: &mut [u8], from: usize, to: usize, k: usize)
    requires { (k ≤ 2048) × (from + k ≤ length s.old) × (to + k ≤ length s.old) }
    ensures { s.new ≡ moved s.old from to k }
{
    let mut piece = [0u8; 2048];
    copy_bytes(&mut piece, 0, s, from, k);
    copy_bytes(s, to, &piece, 0, k);
}

// Moves n bytes as two pieces of k, the first and the last, either way: the last is read before the first is written.
fn move_ends(s: &mut [u8], from: usize, to: usize, n: usize, k: usize)
    requires { (k ≤ 64) × (k ≤ n) × (n ≤ k + k) × (from + n ≤ length s.old) × (to + n ≤ length s.old) }
    ensures { s.new ≡ moved s.old from to n }
{
    let end = n - k;
    let mut last = [0u8; 64];
    copy_bytes(&mut last, 0, s, from + end, k);
    move_piece(s, from, to, k);
    copy_bytes(s, to + end, &last, 0, k);
}

// Moves up to 128 bytes, either way.
fn move_short(s: &mut [u8], from: usize, to: usize, n: usize)
    requires { (n ≤ 128) × (from + n ≤ length s.old) × (to + n ≤ length s.old) }
    ensures { s.new ≡ moved s.old from to n }
{
    if 64 < n {
        move_ends(s, from, to, n, 64);
    } else if 32 < n {
        move_ends(s, from, to, n, 32);
    } else if 16 < n {
        move_ends(s, from, to, n, 16);
    } else if 8 < n {
        move_ends(s, from, to, n, 8);
    } else if 4 < n {
        move_ends(s, from, to, n, 4);
    } else if 2 < n {
        move_ends(s, from, to, n, 2);
    } else if 0 < n {
        move_ends(s, from, to, n, 1);
    }
}

// Moves the n bytes at `from` down to `to`. The two places may overlap.
pub fn move_down(s: &mut [u8], from: usize, to: usize, n: usize)
    requires { (to ≤ from) × (from + n ≤ length s.old) }
    ensures { s.new ≡ moved s.old from to n }
{
    if n <= 128 {
        move_short(s, from, to, n);
        return;
    }
    let mut i: usize = 0;
    while 2048 < n - i {
        move_piece(s, from + i, to + i, 2048);
        i += 2048;
    }
    move_piece(s, from + i, to + i, n - i);
}

// Moves the n bytes at `from` up to `to`. The two places may overlap, so the last piece goes first.
pub fn move_up(s: &mut [u8], from: usize, to: usize, n: usize)
    requires { (from ≤ to) × (to + n ≤ length s.old) }
    ensures { s.new ≡ moved s.old from to n }
{
    if n <= 128 {
        move_short(s, from, to, n);
        return;
    }
    let mut i = n;
    while 2048 < i {
        i -= 2048;
        move_piece(s, from + i, to + i, 2048);
    }
    move_piece(s, from, to, i);
}

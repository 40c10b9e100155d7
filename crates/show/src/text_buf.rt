// A text under construction.
ghost use Rattle.std.specs.Prelude.{◌≡◌, ◌++◌, ◌+◌, ◌≤◌, [], List, ℕ, length, take, nat_abs};
ghost use Rattle.std.proofs.lemmas.List.Edits.{sets};
ghost use Rattle.io.specs.Counts.{IsPrefixLen};
ghost use Rattle.show.specs.Text.{decimal, integer, number_line, refusal};

use std::marker::Model;

// The bytes that were put so far, at most N.
#[derive(Drop)]
pub struct TextBuf<const N: usize> {
    bytes: [u8; N],
    len: usize,
}

// Clauses see the text.
impl<const N: usize> Model for TextBuf<N> {
    ghost Value = { List ℕ };

    ghost view = { λ t. take t.len t.bytes };

    ghost invariant = { λ t. t.len ≤ N };
}

impl<const N: usize> TextBuf<N> {
    pub fn new() -> Self
        ensures { result ≡ [] }
    {
        TextBuf {
            bytes: [0; N],
            len: 0,
        }
    }

    pub fn clear(&mut self)
        ensures { self.new ≡ [] }
    {
        self.len = 0;
    }

    pub fn len(&self) -> usize
        ensures { result ≡ length self.now }
    {
        self.len
    }

    pub fn as_bytes(&self) -> &[u8]
        ensures { result.now ≡ self.now }
    {
        &self.bytes[..self.len]
    }

    // Copies the text into `out` at a place, and answers the place behind it.
    pub fn copy_at(&self, out: &mut [u8], at: usize) -> usize
        requires { at + length self.now ≤ length out.old }
        ensures bytes { out.new ≡ sets out.old at self.now }
        ensures next { result ≡ at + length self.now }
    {
        let s = self.as_bytes();
        blocks::copy_into(out, at, s, 0, s.len());
        at + s.len()
    }

    // Copies the text to the front of `out`, and answers its bytes.
    pub fn copy_to(&self, out: &mut [u8]) -> usize
        requires { length self.now ≤ length out.old }
        ensures bytes { out.new ≡ sets out.old 0 self.now }
        ensures next { result ≡ length self.now }
        ensures within { IsPrefixLen result out.new }
    {
        self.copy_at(out, 0)
    }

    pub fn put(&mut self, s: &[u8])
        requires { length self.old + length s.now ≤ N }
        ensures { self.new ≡ self.old ++ s.now }
    {
        let at = self.len;
        blocks::copy_into(&mut self.bytes, at, s, 0, s.len());
        self.len = at + s.len();
    }

    pub fn put_decimal(&mut self, n: usize)
        requires { length self.old + length (decimal n) ≤ N }
        ensures { self.new ≡ self.old ++ decimal n }
    {
        let mut digits = [0u8; 20];
        let k = io::decimal(n as u64, &mut digits);
        self.put(&digits[..k]);
    }

    // A number behind its label.
    pub fn put_named(&mut self, label: &[u8], n: usize)
        requires { length self.old + length (label.now ++ decimal n) ≤ N }
        ensures { self.new ≡ self.old ++ (label.now ++ decimal n) }
    {
        self.put(label);
        self.put_decimal(n);
    }

    // The same as a line.
    pub fn put_line(&mut self, label: &[u8], n: usize)
        requires { length self.old + length (number_line label.now n) ≤ N }
        ensures { self.new ≡ self.old ++ number_line label.now n }
    {
        self.put_named(label, n);
        self.put(b"\n");
    }

    pub fn put_number(&mut self, x: i32)
        requires { length self.old + length (integer x) ≤ N }
        ensures { self.new ≡ self.old ++ integer x }
    {
        if x < 0 {
            self.put(b"-");
        }
        self.put_decimal(magnitude(x));
    }

    // The line for what is refused.
    #[tactic(auto, unfolding(crate::specs::Text::refusal, crate::specs::Text::refused_label))]
    pub fn put_refused(&mut self, number: i32)
        requires { length self.old + length (refusal number) ≤ N }
        ensures { self.new ≡ self.old ++ refusal number }
    {
        self.put(b"refused ");
        self.put_number(number);
        self.put(b"\n");
    }
}

fn magnitude(x: i32) -> usize
    ensures { result ≡ nat_abs x }
{
    x.unsigned_abs() as usize
}

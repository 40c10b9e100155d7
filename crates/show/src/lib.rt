// Text and numbers for the programs: built up in a buffer, which is proved to the byte, and written to standard output.
#![tactic(auto)]

ghost use Rattle.std.specs.Prelude.{◌≡◌};
ghost use Rattle.show.specs.Text.{decimal as Text·decimal, integer};

pub use text_buf::TextBuf;

mod text_buf;

// The descriptors of standard output and of standard error.
pub const STDOUT_FILENO: i32 = 1;

pub const STDERR_FILENO: i32 = 2;

pub fn text(s: &[u8]) {
    io::write_all(STDOUT_FILENO, s);
}

pub fn decimal(n: usize) {
    text(decimal_text(n).as_bytes());
}

// A number: at most twenty digits.
pub fn decimal_text(n: usize) -> TextBuf<20>
    ensures { result ≡ Text·decimal n }
{
    let mut digits = TextBuf::new();
    digits.put_decimal(n);
    digits
}

// A signed number: at most a sign and ten digits.
pub fn number_text(x: i32) -> TextBuf<11>
    ensures { result ≡ integer x }
{
    let mut digits = TextBuf::new();
    digits.put_number(x);
    digits
}

// The number of some bytes of a list, low byte first.
#![tactic(auto)]

ghost use Rattle.std.specs.Prelude.{◌≡◌, ◌+◌, ◌<◌, ◌≤◌, length};
ghost use Rattle.low_first.specs.Numbers.{number_at};

use opus_defines::wide_byte;

// Of two bytes; then of four, and of eight, which are loaded as one word.
pub fn two_at(data: &[u8], at: usize) -> usize
    requires { at + 2 ≤ length «data».now }
    ensures { (result ≡ number_at «data».now at 2) × (result < 65536) }
{
    wide_byte(data[at]) + 256 * wide_byte(data[at + 1])
}

pub fn four_at(data: &[u8], at: usize) -> usize
    requires { at + 4 ≤ length «data».now }
    ensures { (result ≡ number_at «data».now at 4) × (result < 4294967296) }
{
    two_at(data, at) + 65536 * two_at(data, at + 2)
}

pub fn eight_at(data: &[u8], at: usize) -> usize
    requires { at + 8 ≤ length «data».now }
    ensures { result ≡ number_at «data».now at 8 }
{
    four_at(data, at) + 4294967296 * four_at(data, at + 4)
}

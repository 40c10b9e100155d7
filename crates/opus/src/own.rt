// A self-delimited packet of codes 0 to 2 (RFC 6716, appendix B), read without an array for its lengths, which costs more than the reading. The last
// frame says its length too, and two equal ones say it once; what is behind them is not looked at.
ghost use Rattle.std.specs.Prelude.{◌≡◌, true, ◌≤◌, length, get_or};
ghost use Rattle.opus_toc.specs.Toc.{code};
ghost use Rattle.opus_format.specs.Reading.{read};
ghost use Rattle.opus.specs.Answers.{short_of, short_at};

use crate::Short;
use opus_defines::{Rule, wide};

// Code 0: the frame says its length.
fn own_one(data: &[u8]) -> Short
    requires { (1 ≤ length «data».now) × (code (get_or «data».now 0 0) ≡ 0) }
    ensures { result ≡ short_of (read true «data».now) }
{
    let size = opus_size::size_at(data, 1);
    let Some((n, first)) = size else {
        return Short::Broken(Rule::R8, 1);
    };
    if data.len() - first < wide(n) {
        return Short::Broken(Rule::R8, 1);
    }
    Short::One(n, first)
}

// Code 1: the frames say their one length.
fn own_equal(data: &[u8]) -> Short
    requires { (1 ≤ length «data».now) × (code (get_or «data».now 0 0) ≡ 1) }
    ensures { result ≡ short_of (read true «data».now) }
{
    let size = opus_size::size_at(data, 1);
    let Some((n, first)) = size else {
        return Short::Broken(Rule::R8, 1);
    };
    if data.len() - first < 2 * wide(n) {
        return Short::Broken(Rule::R8, 1);
    }
    Short::Two(n, n, first)
}

// Code 2: each frame says its length, and the second length stands behind the first.
fn own_unequal(data: &[u8]) -> Short
    requires { (1 ≤ length «data».now) × (code (get_or «data».now 0 0) ≡ 2) }
    ensures { result ≡ short_of (read true «data».now) }
{
    let size = opus_size::size_at(data, 1);
    let Some((m, next)) = size else {
        return Short::Broken(Rule::R4, 1);
    };
    if data.len() - next < wide(m) {
        return Short::Broken(Rule::R4, 1);
    }
    let last = opus_size::size_at(data, next);
    let Some((n, first)) = last else {
        return Short::Broken(Rule::R8, next);
    };
    if data.len() - first < wide(m) + wide(n) {
        return Short::Broken(Rule::R8, next);
    }
    Short::Two(m, n, first)
}

// The code is told bit by bit, as `short_at` tells it.
pub fn own_at(data: &[u8]) -> Short
    ensures { result ≡ short_at true «data».now }
{
    if data.len() == 0 {
        return Short::Broken(Rule::R1, 0);
    }
    let toc = data[0];
    if toc / 2 % 2 == 0 {
        if toc % 2 == 0 {
            return own_one(data);
        }
        return own_equal(data);
    }
    if toc % 2 == 0 {
        return own_unequal(data);
    }
    Short::Counted
}

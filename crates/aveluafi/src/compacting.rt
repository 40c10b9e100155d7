// A share of compaction (document 02, M-103), exported.
ghost use Rattle.std.specs.Prelude.{◌≡◌, length};
ghost use Rattle.compaction.specs.Share.{night, share, leaves};
ghost use Rattle.aveluafi.specs.Records.{share_record};

use compaction::Share;
use opus_defines::Refusal;

// What a share did; all zeros beside a refusal.
#[repr(C)]
#[derive(Clone, Copy)]
pub struct AveluafiShare {
    // 0, or the refusal.
    pub number: i32,
    // The place of the next record, or the end where none is left.
    pub resume: usize,
    pub records: usize,
    // The bytes of the records done as they were written, and by how many they were longer.
    pub written: usize,
    pub reclaimed: usize,
    pub passed: usize,
}

fn share_record(a: Result<Share, Refusal>) -> AveluafiShare
    ensures { result ≡ share_record a }
{
    match a {
        Ok(s) => AveluafiShare {
            number: 0,
            resume: s.resume,
            records: s.records,
            written: s.written,
            reclaimed: s.reclaimed,
            passed: s.passed,
        },
        Err(e) => AveluafiShare {
            number: opus_defines::refusal_number(e),
            resume: 0,
            records: 0,
            written: 0,
            reclaimed: 0,
            passed: 0,
        },
    }
}

// The records of a capture from a start place on, each with its packet in the shorter spelling, as many as the budget holds.
#[unsafe(no_mangle)]
pub extern "C" fn aveluafi_compact(
    data: &[u8],
    start: usize,
    dst: &mut [u8],
    budget: usize,
) -> AveluafiShare
    ensures answer { result
        ≡ share_record (share «data».now (night «data».now start (length dst.old) budget)) }
    ensures bytes { dst.new
        ≡ leaves «data».now dst.old (night «data».now start (length dst.old) budget) }
{
    share_record(compaction::compact_share(data, start, dst, budget))
}

// Records of capture files (document 02, M-101), exported.
ghost use Rattle.std.specs.Prelude.{◌≡◌};
ghost use Rattle.capture.specs.Finding.{next_record};
ghost use Rattle.aveluafi.specs.Records.{capture_record};

// A record of a capture, and the bytes passed over before it; all zeros beside a refusal.
#[repr(C)]
#[derive(Clone, Copy)]
pub struct AveluafiRecord {
    // 0, or the refusal.
    pub number: i32,
    pub line: u8,
    // Of the mark, and the bytes of the packet: the end and 0 where no record is left.
    pub place: usize,
    pub length: usize,
    pub passed: usize,
}

// The next record from a start place on. Its packet stands behind the five bytes of its head: a function exported to C can hand back no slice.
#[unsafe(no_mangle)]
pub extern "C" fn aveluafi_next_record(data: &[u8], start: usize) -> AveluafiRecord
    ensures { result ≡ capture_record (next_record «data».now start) }
{
    let r = capture::next_record(data, start);
    let v = r.verdict;
    AveluafiRecord {
        number: opus_defines::verdict_number(opus_defines::OPUS_OK, v),
        line: r.line,
        place: r.place,
        length: r.length,
        passed: r.passed,
    }
}

// Identification headers of Ogg Opus streams (document 02, M-111), exported.
ghost use Rattle.std.specs.Prelude.{◌≡◌};
ghost use Rattle.opus_head.specs.Reading.{head_read, head_write};
ghost use Rattle.aveluafi.specs.Records.{head_record};

use opus_head::OpusHead;

// A header that was read; all zeros beside a refusal.
#[repr(C)]
#[derive(Clone, Copy)]
pub struct AveluafiHead {
    // 0, or the refusal.
    pub number: i32,
    pub head: OpusHead,
}

// Reads the header that `data` is.
#[unsafe(no_mangle)]
pub extern "C" fn aveluafi_head_read(data: &[u8]) -> AveluafiHead
    ensures { result ≡ head_record (head_read «data».now) }
{
    match opus_head::head_read(data) {
        Ok(head) => AveluafiHead { number: 0, head },
        Err(e) => AveluafiHead {
            number: opus_defines::refusal_number(e),
            head: opus_head::zero_head(),
        },
    }
}

// Writes a header of the fields at the front of `dst`, and answers its bytes. The fields are lent, and go on by value: the copy is little beside the
// tests.
#[unsafe(no_mangle)]
pub extern "C" fn aveluafi_head_write(head: &OpusHead, dst: &mut [u8]) -> i32
    ensures { (result ≡ (head_write head.now dst.old).report.number)
        × (dst.new ≡ (head_write head.now dst.old).bytes) }
{
    opus_head::head_write(*head, dst)
}

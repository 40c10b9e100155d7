// Ordinary packets joined into one multistream packet, and a stream taken out of one (document 02, M-108), exported.
ghost use Rattle.std.specs.Prelude.{◌≡◌};
ghost use Rattle.stream_join.specs.Join.{packets_joined, stream_taken};

use opus_defines::Report;

// The packets of these lengths, which lie one behind another in `data`.
#[unsafe(no_mangle)]
pub extern "C" fn aveluafi_multistream_join(data: &[u8], lengths: &[u16], dst: &mut [u8]) -> Report
    ensures report { result ≡ (packets_joined «data».now lengths.now dst.old).report }
    ensures bytes { dst.new ≡ (packets_joined «data».now lengths.now dst.old).bytes }
{
    stream_join::multistream_join(data, lengths, dst)
}

// Stream k, from 0, of so many.
#[unsafe(no_mangle)]
pub extern "C" fn aveluafi_multistream_take(
    data: &[u8],
    nb_streams: i32,
    k: i32,
    dst: &mut [u8],
) -> Report
    ensures report { result ≡ (stream_taken «data».now nb_streams k dst.old).report }
    ensures bytes { dst.new ≡ (stream_taken «data».now nb_streams k dst.old).bytes }
{
    stream_join::multistream_take(data, nb_streams, k, dst)
}

// Pad and unpad, in place, of packets and of multistream packets, exported. Each answers the report of the core: the number, and where a packet cannot
// be read the rule and the place, from the front of the buffer.
ghost use Rattle.std.specs.Prelude.{◌≡◌};
ghost use Rattle.packet_pad.specs.Pad.{padded};
ghost use Rattle.packet_pad.specs.Unpad.{unpadded};
ghost use Rattle.multistream.specs.Pad.{streams_padded};
ghost use Rattle.multistream.specs.Unpad.{streams_unpadded};

use opus_defines::Report;

#[unsafe(no_mangle)]
pub extern "C" fn aveluafi_packet_pad(data: &mut [u8], len: i32, new_len: i32) -> Report
    ensures report { result ≡ (padded «data».old len new_len).report }
    ensures bytes { «data».new ≡ (padded «data».old len new_len).bytes }
{
    packet_pad::opus_packet_pad(data, len, new_len)
}

#[unsafe(no_mangle)]
pub extern "C" fn aveluafi_packet_unpad(data: &mut [u8], len: i32) -> Report
    ensures report { result ≡ (unpadded «data».old len).report }
    ensures bytes { «data».new ≡ (unpadded «data».old len).bytes }
{
    packet_pad::opus_packet_unpad(data, len)
}

#[unsafe(no_mangle)]
pub extern "C" fn aveluafi_multistream_packet_pad(
    data: &mut [u8],
    len: i32,
    new_len: i32,
    nb_streams: i32,
) -> Report
    ensures report { result ≡ (streams_padded «data».old len new_len nb_streams).report }
    ensures bytes { «data».new ≡ (streams_padded «data».old len new_len nb_streams).bytes }
{
    multistream::opus_multistream_packet_pad(data, len, new_len, nb_streams)
}

#[unsafe(no_mangle)]
pub extern "C" fn aveluafi_multistream_packet_unpad(
    data: &mut [u8],
    len: i32,
    nb_streams: i32,
) -> Report
    ensures report { result ≡ (streams_unpadded «data».old len nb_streams).report }
    ensures bytes { «data».new ≡ (streams_unpadded «data».old len nb_streams).bytes }
{
    multistream::opus_multistream_packet_unpad(data, len, nb_streams)
}

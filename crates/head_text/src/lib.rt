// The text of the program `head`: the fields of an identification header in words, a line each, put into a buffer.
#![tactic(auto)]

ghost use Rattle.std.specs.Prelude.{◌≡◌, ◌++◌, ◌+◌, ◌≤◌, length};
ghost use Rattle.std.proofs.lemmas.List.Edits.{sets};
ghost use Rattle.io.specs.Counts.{IsPrefixLen};
ghost use Rattle.opus_head.specs.Parts.{fields_of};
ghost use Rattle.show.specs.Text.{number_text};
ghost use Rattle.head_text.specs.Text.{gain_line, entry_texts, mapping_line, opening_lines, sound_lines, stream_lines, head_lines, head_text};

use opus_head::OpusHead;
use show::TextBuf;

// ---- lines

// A number between its label and the end of the line.
fn put_number_line<const N: usize>(text: &mut TextBuf<N>, label: &[u8], n: usize, end: &[u8])
    requires { length text.old + length (number_text label.now n end.now) ≤ N }
    ensures { text.new ≡ text.old ++ number_text label.now n end.now }
{
    text.put_named(label, n);
    text.put(end);
}

#[tactic(auto, using(crate::proofs::Texts::gains))]
fn put_gain<const N: usize>(text: &mut TextBuf<N>, gain: i16)
    requires { length text.old + length (gain_line gain) ≤ N }
    ensures { text.new ≡ text.old ++ gain_line gain }
{
    text.put(b"gain ");
    text.put_number(i32::from(gain));
    text.put(b" in 1/256 dB\n");
}

fn put_entries<const N: usize>(text: &mut TextBuf<N>, es: &[u8])
    requires { length text.old + length (entry_texts es.now) ≤ N }
    ensures { text.new ≡ text.old ++ entry_texts es.now }
{
    for entry in es {
        text.put_named(b" ", usize::from(*entry));
    }
}

fn put_mapping<const N: usize>(text: &mut TextBuf<N>, es: &[u8])
    requires { length text.old + length (mapping_line es.now) ≤ N }
    ensures { text.new ≡ text.old ++ mapping_line es.now }
{
    text.put(b"mapping");
    put_entries(text, es);
    text.put(b"\n");
}

// ---- three lines at a time

#[tactic(auto, unfolding(crate::specs::Text::opening_lines))]
fn put_opening<const N: usize>(text: &mut TextBuf<N>, version: u8, channels: u8, skip: u16)
    requires { length text.old + length (opening_lines version channels skip) ≤ N }
    ensures { text.new ≡ text.old ++ opening_lines version channels skip }
{
    put_number_line(text, b"version ", usize::from(version), b"\n");
    put_number_line(text, b"channels ", usize::from(channels), b"\n");
    put_number_line(text, b"pre-skip ", usize::from(skip), b" samples\n");
}

#[tactic(auto, unfolding(crate::specs::Text::sound_lines))]
fn put_sound<const N: usize>(text: &mut TextBuf<N>, rate: u32, gain: i16, family: u8)
    requires { length text.old + length (sound_lines rate gain family) ≤ N }
    ensures { text.new ≡ text.old ++ sound_lines rate gain family }
{
    put_number_line(text, b"input rate ", rate as usize, b" Hz\n");
    put_gain(text, gain);
    put_number_line(text, b"family ", usize::from(family), b"\n");
}

#[tactic(auto, unfolding(crate::specs::Text::stream_lines))]
fn put_streams<const N: usize>(text: &mut TextBuf<N>, streams: u8, coupled: u8, es: &[u8])
    requires { length text.old + length (stream_lines streams coupled es.now) ≤ N }
    ensures { text.new ≡ text.old ++ stream_lines streams coupled es.now }
{
    put_number_line(text, b"streams ", usize::from(streams), b"\n");
    put_number_line(text, b"coupled ", usize::from(coupled), b"\n");
    put_mapping(text, es);
}

// ---- the text: at most 1,165 bytes

fn put_fields<const N: usize>(
    text: &mut TextBuf<N>,
    version: u8,
    channels: u8,
    skip: u16,
    rate: u32,
    gain: i16,
    family: u8,
    streams: u8,
    coupled: u8,
    mapping: &[u8],
)
    requires { (length mapping.now ≡ 255) × (length text.old + 1165 ≤ N) }
    ensures { text.new ≡ text.old ++ head_lines (fields_of version channels skip rate gain family streams coupled mapping.now) }
{
    put_opening(text, version, channels, skip);
    put_sound(text, rate, gain, family);
    let n = channels as usize;
    put_streams(text, streams, coupled, &mapping[..n]);
}

fn put_head<const N: usize>(text: &mut TextBuf<N>, head: OpusHead)
    requires { length text.old + 1165 ≤ N }
    ensures { text.new ≡ text.old ++ head_lines head }
{
    let mapping = head.mapping;
    put_fields(
        text,
        head.version,
        head.channels,
        head.pre_skip,
        head.rate,
        head.gain,
        head.family,
        head.streams,
        head.coupled,
        &mapping,
    );
}

fn build_text<const N: usize>(data: &[u8], text: &mut TextBuf<N>)
    requires { length text.old + 1165 ≤ N }
    ensures { text.new ≡ text.old ++ head_text «data».now }
{
    match opus_head::head_read(data) {
        Ok(head) => put_head(text, head),
        Err(e) => text.put_refused(opus_defines::refusal_number(e)),
    }
}

// Puts the text of the header at the front of `data`: its fields, or the line `refused` with the refusal's number.
#[tactic(auto, using(crate::proofs::Promises::text_has_room))]
pub fn put_text(data: &[u8], out: &mut [u8]) -> usize
    requires { 1165 ≤ length out.old }
    ensures bytes { out.new ≡ sets out.old 0 (head_text «data».now) }
    ensures next { result ≡ length (head_text «data».now) }
    ensures within { IsPrefixLen result out.new }
{
    let mut text: TextBuf<1165> = TextBuf::new();
    build_text(data, &mut text);
    text.copy_to(out)
}

// Prints the text; where that fails it is told.
pub fn print(data: &[u8]) {
    let mut out = [0u8; 1165];
    let n = put_text(data, &mut out);
    let _ = stdio::print(&out[..n]);
}

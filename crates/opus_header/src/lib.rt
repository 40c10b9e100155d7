// The one header writer: the bytes in front of the frames, for every form that a packet is written in.
#![tactic(auto)]

ghost use Rattle.std.specs.Prelude.{◌≡◌, cond, ◌+◌, ◌*◌, ◌<◌, ◌≤◌, eqb, length, drop};
ghost use Rattle.std.proofs.lemmas.List.Edits.{sets};
ghost use Rattle.opus_size.specs.Size.{most_bytes, length_field, length_fields};
ghost use Rattle.opus_toc.specs.Toc.{upper_six};
ghost use Rattle.opus_format.specs.Frames.{longest, total, cut};
ghost use Rattle.opus_format.specs.Format.{own_length};
ghost use Rattle.opus_header.specs.Header.{chain, pad_bytes, short_code, full_front};
ghost use Rattle.opus_header.specs.Sums.{sums_of, front_of, header_of};
ghost use Rattle.opus_header.specs.Compact.{compact};
ghost use Rattle.opus_header.specs.Forms.{compact_form, form_for, front_bytes, header_bytes, compact_bytes, missing};

use opus_defines::wide;

// What is counted of the lengths before anything is written.
#[derive(Clone, Copy)]
pub struct Sums {
    // The frames' bytes, and the bytes of the length fields in front of them.
    pub total: usize,
    pub sizes: usize,
    pub same: bool,
    pub last: usize,
}

// The form of a packet: codes 0 to 2, or code 3 with so many missing bytes.
#[derive(Clone, Copy, Debug, PartialEq, Eq)]
pub enum Form {
    Short,
    Full(usize),
}

// The bytes of a length's field.
fn field_bytes(n: u16) -> u16
    ensures { result ≡ length (length_field n) }
{
    if n < 252 { 1 } else { 2 }
}

// One pass in 16 bits, which hold the sum of 48 lengths, so that the compiler makes a wide loop of it.
pub fn sums_of(ns: &[u16]) -> Sums
    requires { (1 ≤ length ns.now) × (length ns.now ≤ 48) × (longest ns.now ≤ most_bytes) }
    ensures { result ≡ sums_of ns.now }
{
    let first = ns[0];
    let last = ns[ns.len() - 1];
    let mut total: u16 = 0;
    let mut fields: u16 = 0;
    let mut same = true;
    for &n in ns {
        total += n;
        fields += field_bytes(n);
        if n != first {
            same = false;
        }
    }
    if same {
        return Sums {
            total: wide(total),
            sizes: 0,
            same,
            last: wide(last),
        };
    }
    let sizes = fields - field_bytes(last);
    Sums {
        total: wide(total),
        sizes: wide(sizes),
        same,
        last: wide(last),
    }
}

// The length fields of all of `ns`, one behind another.
fn put_sizes(data: &mut [u8], at: usize, ns: &[u16]) -> usize
    requires { (longest ns.now ≤ most_bytes) × (at + length (length_fields ns.now) ≤ length «data».old) }
    ensures bytes { «data».new ≡ sets «data».old at (length_fields ns.now) }
    ensures next { result ≡ at + length (length_fields ns.now) }
{
    let mut next = at;
    for &n in ns {
        next = opus_size::put_size(data, next, wide(n));
    }
    next
}

// The padding lengths for `missing` bytes.
fn put_chain(data: &mut [u8], at: usize, missing: usize) -> usize
    requires { at + length (chain missing) ≤ length «data».old }
    ensures bytes { «data».new ≡ sets «data».old at (chain missing) }
    ensures next { result ≡ at + length (chain missing) }
{
    if missing == 0 {
        return at;
    }
    let more = (missing - 1) / 255;
    blocks::fill(data, at, more, 255);
    data[at + more] = (missing - 1 - 255 * more) as u8;
    at + more + 1
}

// The flags of the count byte: unequal lengths, and padding.
fn unequal_flag(same: bool) -> usize
    ensures { result ≡ 128 * cond same 0 1 }
{
    if same { 0 } else { 128 }
}

fn padding_flag(missing: usize) -> usize
    ensures { result ≡ 64 * cond (eqb missing 0) 0 1 }
{
    if missing == 0 { 0 } else { 64 }
}

fn short_code(count: usize, same: bool) -> u8
    ensures { result ≡ short_code count same }
{
    if count < 2 {
        return 0;
    }
    if same { 1 } else { 2 }
}

// The TOC byte of code 3, the count byte and the padding lengths.
fn put_full(data: &mut [u8], toc: u8, count: usize, same: bool, missing: usize) -> usize
    requires { (count ≤ 48) × (2 + length (chain missing) ≤ length «data».old) }
    ensures bytes { «data».new ≡ sets «data».old 0 (full_front (upper_six toc) count same missing) }
    ensures next { result ≡ length (full_front (upper_six toc) count same missing) }
{
    let flags = unequal_flag(same) + padding_flag(missing);
    data[0] = 4 * (toc / 4) + 3;
    data[1] = (flags + count) as u8;
    put_chain(data, 2, missing)
}

// The TOC byte and what is counted.
fn put_front(data: &mut [u8], toc: u8, count: usize, same: bool, form: Form) -> usize
    requires { (count ≤ 48) × (length (front_of (upper_six toc) count same form) ≤ length «data».old) }
    ensures bytes { «data».new ≡ sets «data».old 0 (front_of (upper_six toc) count same form) }
    ensures next { result ≡ length (front_of (upper_six toc) count same form) }
{
    match form {
        Form::Short => {
            data[0] = 4 * (toc / 4) + short_code(count, same);
            1
        }
        Form::Full(missing) => put_full(data, toc, count, same, missing),
    }
}

// Writes the header of a packet whose lengths `m` counts, with the upper six bits of `toc`, and answers its bytes.
pub fn put_header(
    data: &mut [u8],
    toc: u8,
    ns: &[u16],
    m: Sums,
    form: Form,
    self_delimited: bool,
) -> usize
    requires measured { m ≡ sums_of ns.now }
    requires some { (1 ≤ length ns.now) × (length ns.now ≤ 48) × (longest ns.now ≤ most_bytes) }
    requires room { length (header_of self_delimited (upper_six toc) ns.now form) ≤ length «data».old }
    ensures bytes { «data».new ≡ sets «data».old 0 (header_of self_delimited (upper_six toc) ns.now form) }
    ensures next { result ≡ length (header_of self_delimited (upper_six toc) ns.now form) }
{
    let same = m.same;
    let mut at = put_front(data, toc, ns.len(), same, form);
    if !same {
        at = put_sizes(data, at, &ns[..ns.len() - 1]);
    }
    if self_delimited {
        at = opus_size::put_size(data, at, m.last);
    }
    at
}

// ---- bytes and forms, before anything is written

// The bytes of the padding lengths for `missing` bytes.
fn chain_bytes(missing: usize) -> usize
    ensures { result ≡ length (chain missing) }
{
    if missing == 0 {
        return 0;
    }
    (missing - 1) / 255 + 1
}

// The padding bytes behind the frames.
pub fn pad_bytes(form: Form) -> usize
    ensures { result ≡ pad_bytes (missing form) }
{
    match form {
        Form::Short => 0,
        Form::Full(missing) => missing - chain_bytes(missing),
    }
}

fn front_bytes(form: Form) -> usize
    requires { missing form ≤ 65535 }
    ensures { result ≡ front_bytes form }
{
    match form {
        Form::Short => 1,
        Form::Full(missing) => 2 + chain_bytes(missing),
    }
}

// The bytes of the self-delimited form's length.
fn own_bytes(last: usize, self_delimited: bool) -> usize
    ensures { result ≡ length (own_length self_delimited last) }
{
    if self_delimited {
        return opus_size::size_bytes(last);
    }
    0
}

// The bytes of the header that `put_header` writes.
pub fn header_bytes(m: Sums, form: Form, self_delimited: bool) -> usize
    requires { (m.sizes ≤ 96) × (missing form ≤ 65535) }
    ensures { result ≡ header_bytes m form self_delimited }
{
    front_bytes(form) + (m.sizes + own_bytes(m.last, self_delimited))
}

// The form of the compact packet.
pub fn compact_form(count: usize) -> Form
    ensures { result ≡ compact_form count }
{
    if count < 3 {
        return Form::Short;
    }
    Form::Full(0)
}

// The bytes of the compact packet: its header and the frames.
pub fn compact_bytes(count: usize, m: Sums, self_delimited: bool) -> usize
    requires { (m.sizes ≤ 96) × (m.total ≤ 61200) }
    ensures { result ≡ compact_bytes count m self_delimited }
{
    header_bytes(m, compact_form(count), self_delimited) + m.total
}

// The form of a packet whose compact form has `need` bytes; with padding asked for it fills the room.
pub fn form_for(count: usize, need: usize, room: usize, pad: bool) -> Form
    requires { need ≤ room }
    ensures { result ≡ form_for count need room pad }
{
    if !pad {
        return compact_form(count);
    }
    if room <= need {
        return compact_form(count);
    }
    if count < 3 {
        return Form::Full(room - (need + 1));
    }
    Form::Full(room - need)
}

// Writes the compact packet of frames of lengths `ns`, which stand in `data` from `first` on, at the front of `dst`, and answers its bytes.
pub fn put_compact(
    dst: &mut [u8],
    toc: u8,
    ns: &[u16],
    data: &[u8],
    first: usize,
    self_delimited: bool,
) -> usize
    requires some { (1 ≤ length ns.now) × (length ns.now ≤ 48) × (longest ns.now ≤ most_bytes) }
    requires block { first + total ns.now ≤ length «data».now }
    requires room { length (compact self_delimited (upper_six toc) (cut ns.now (drop first «data».now))) ≤ length dst.old }
    ensures bytes { dst.new
        ≡ sets dst.old 0 (compact self_delimited (upper_six toc) (cut ns.now (drop first «data».now))) }
    ensures next { result ≡ length (compact self_delimited (upper_six toc) (cut ns.now (drop first «data».now))) }
{
    let m = sums_of(ns);
    let form = compact_form(ns.len());
    let at = put_header(dst, toc, ns, m, form, self_delimited);
    blocks::copy_into(dst, at, data, first, m.total);
    at + m.total
}

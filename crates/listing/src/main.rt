// Prints the listing of the one packet that standard input holds.
#![tactic(auto)]

fn main(rt: HostRuntime) {
    // One byte more than the longest packet: an input that fills the buffer is too long, whatever is behind it.
    let mut data = io::large_buffer();
    if let Ok(n) = stdio::read_all(&mut rt.stdin(), &mut data) {
        let mut out = [0u8; 2048];
        let end = listing_text::listing(&data[..n], &mut out);
        let _ = stdio::print(&out[..end]);
    }
}

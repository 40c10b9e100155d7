// Lists the records of the capture that standard input holds: a line `line place length` for each, in decimals.
#![tactic(auto)]

fn main(rt: HostRuntime) {
    // One byte more than the longest capture: an input that fills the buffer is too long, whatever is behind it.
    let mut data = [0u8; 65537];
    if let Ok(n) = stdio::read_all(&mut rt.stdin(), &mut data) {
        captures_text::print(&data[..n]);
    }
}

// Judges the packets of the capture that standard input holds, in ordinary form: a verdict for each record, then the four totals.
#![tactic(auto)]

fn main(rt: HostRuntime) {
    // One byte more than the longest capture: an input that fills the buffer is too long, whatever is behind it.
    let mut data = [0u8; 65537];
    if let Ok(n) = stdio::read_all(&mut rt.stdin(), &mut data) {
        judge_text::print(&data[..n]);
    }
}

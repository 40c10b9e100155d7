// Prints the fields of the identification header that standard input holds, a line each.
#![tactic(auto)]

fn main(rt: HostRuntime) {
    // One byte more than the longest header of version 1, and the fields of the other versions stand in no more: what is behind changes no answer.
    let mut data = [0u8; 277];
    if let Ok(n) = stdio::read_all(&mut rt.stdin(), &mut data) {
        head_text::print(&data[..n]);
    }
}

// Prints the listing of the record that standard input holds.
#![tactic(auto)]

use std::io;

// A record has at most 1367 bytes, so of a longer input the reader looks at no byte that is not read here.
// A listing has at most 3912: no number in it takes more than three digits, and each node is shown once.
fn main(rt: HostRuntime) -> io::Result<()> {
    let mut bytes = [0u8; 4096];
    let length = streams::read_full(&mut rt.stdin(), &mut bytes)?;
    let mut text = [0u8; 4096];
    if let Ok(size) = listing::list(&bytes[..length], &mut text) {
        rt.write_all(&text[..size as usize])?;
    }
    Ok(())
}

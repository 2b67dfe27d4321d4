// A plant followed by signs from the command line or from standard input, a line for each.
use command::Listener;
use plant::Plant;
use std::env::Args;
use std::io::Read;

// Prints the line for one word; whether it was a sign.
fn print_line(rt: &HostRuntime, listener: &mut Listener, word: &[u8]) -> anyhow::Result<bool> {
    match listener.hear(word) {
        Ok(known) => {
            println!(rt; "{known}")?;
            Ok(true)
        }
        Err(refusal) => {
            println!(rt; "{refusal}")?;
            Ok(false)
        }
    }
}

// Whether every word was a sign.
pub(crate) fn follow_words(rt: &HostRuntime, plant: Plant, words: Args) -> anyhow::Result<bool> {
    let mut listener = Listener::new(plant);
    let mut all_taken = true;
    for word in words {
        all_taken &= print_line(rt, &mut listener, word.as_str().as_bytes())?;
    }
    Ok(all_taken)
}

// `is_ascii_whitespace` has the form feed too.
fn is_blank(b: u8) -> bool {
    matches!(b, b' ' | b'\t' | b'\r' | b'\n')
}

// The same for words from standard input, read byte by byte, so that each word is answered as soon as the blank behind it has come.
pub(crate) fn follow_input(rt: &HostRuntime, plant: Plant) -> anyhow::Result<bool> {
    let mut listener = Listener::new(plant);
    let mut word = Vec::new(rt.alloc());
    let mut all_taken = true;
    for byte in rt.stdin().bytes() {
        let byte = byte?;
        if !is_blank(byte) {
            word.push(byte)?;
        } else if !word.is_empty() {
            all_taken &= print_line(rt, &mut listener, word.as_slice())?;
            word.clear();
        }
    }
    if !word.is_empty() {
        all_taken &= print_line(rt, &mut listener, word.as_slice())?;
    }
    Ok(all_taken)
}

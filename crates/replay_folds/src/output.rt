// The output that a fold is given, and what it has after the fold.

// What stands at a place of the output before the fold.
fn before(at: usize) -> u8 {
    (at % 251) as u8
}

pub fn prepare(output: &mut [u8]) {
    for (at, byte) in output.iter_mut().enumerate() {
        *byte = before(at);
    }
}

// What is to stand there after it.
fn after(expected: &[u8], at: usize) -> u8 {
    expected.get(at).copied().unwrap_or(before(at))
}

// How many bytes aren't as they should be.
pub fn other_bytes(output: &[u8], expected: &[u8]) -> usize {
    output
        .iter()
        .enumerate()
        .filter(|&(at, byte)| *byte != after(expected, at))
        .count()
}

//! Parts of an output.

/// The line that stands between a trace and its history, with the end of the line before.
const POOL: &[u8] = b"\n%pool\n";

/// The part from the line `%pool` on: nothing where there is no such line.
pub fn history_part(output: &[u8]) -> &[u8] {
    for place in 0..output.len() {
        if output[place..].starts_with(POOL) {
            return &output[place + 1..];
        }
    }
    &[]
}

/// Whether a work was handed in: then its threads have a part in the order of the output.
pub fn has_works(output: &[u8]) -> bool {
    output
        .split(|byte| *byte == b'\n')
        .any(|line| line.starts_with(b"submit "))
}

//! Rows of a text and what is wrong with it.

use std::alloc::{AllocError, Global};

/// A text, and the line and the kind of its first fault, both 0 where it has none.
#[derive(Drop)]
pub struct Case {
    pub fault: (u32, u8),
    pub text: Vec<u8>,
}

/// The case of a row: the digit of the line and of the kind, a space, and the text with `;` for
/// each end of a line.
pub fn case_of(alloc: Global, row: &str) -> Result<Case, AllocError> {
    let (fault, text) = match row.as_bytes() {
        [line, kind, _, text @ ..] => ((u32::from(digit(*line)), digit(*kind)), text),
        text => ((0, 0), text),
    };
    let text = text
        .iter()
        .map(|byte| if *byte == b';' { b'\n' } else { *byte })
        .collect(alloc)?;
    Ok(Case { fault, text })
}

fn digit(byte: u8) -> u8 {
    byte.saturating_sub(b'0')
}

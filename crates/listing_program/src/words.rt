//! The words of the command line.

use std::alloc::{AllocError, Global};
use std::env::{Env, FillError};

/// How often the memory for a word is doubled at most.
const DOUBLINGS: u32 = 40;

/// Returns a word in a buffer that it fits, and its length; None after the last word.
fn word_bytes<R: Env>(rt: &R, alloc: Global, number: usize) -> Result<Option<Vec<u8>>, AllocError> {
    let mut bytes = Vec::new(alloc);
    bytes.resize(64, 0)?;
    for _ in 0..DOUBLINGS {
        match rt.arg(number, &mut bytes) {
            Ok(len) => {
                bytes.truncate(len);
                return Ok(Some(bytes));
            }
            Err(FillError::NotPresent) => return Ok(None),
            Err(FillError::TooLong) => {
                let len = bytes.len().saturating_mul(2);
                bytes.resize(len, 0)?;
            }
        }
    }
    Err(AllocError)
}

/// The words behind the program's name. A word that is not UTF-8 is the empty word.
pub fn words<R: Env>(rt: &R, alloc: Global) -> Result<Vec<String>, AllocError> {
    let mut words = Vec::new(alloc);
    for number in 1..usize::MAX {
        match word_bytes(rt, alloc, number)? {
            None => return Ok(words),
            Some(bytes) => words.push(String::from_utf8(bytes).unwrap_or(String::new(alloc)))?,
        }
    }
    Ok(words)
}

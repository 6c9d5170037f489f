//! Texts of arguments and of names that may not be UTF-8. `std` opens files by their names as text. So a file whose
//! name is not UTF-8 cannot be opened, but it can be named.
use std::alloc::{AllocError, Global};
use std::str;

/// Ends a text that was made of bytes that are not UTF-8. No argument and no name of a file has this character.
const MARK: char = '\0';

/// Returns the text. If the bytes are not UTF-8, U+FFFD is in place of those that are not, and the text is marked.
pub fn marked(alloc: Global, bytes: &[u8]) -> Result<String, AllocError> {
    let mut text = String::from_utf8_lossy(alloc, bytes)?;
    if str::from_utf8(bytes).is_err() {
        text.push(MARK)?;
    }
    Ok(text)
}

/// Returns whether the text was made of bytes that are not UTF-8.
pub fn is_marked(text: &str) -> bool {
    text.ends_with(MARK)
}

/// Returns the text without its mark.
pub fn without_mark(text: &str) -> &str {
    text.strip_suffix(MARK).unwrap_or(text)
}

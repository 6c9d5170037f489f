//! Bytes that are in each text in which a pattern matches.
//!
//! A text without these bytes need not be searched: no pattern matches in it. The laws say so (`laws`).
//!
//! ```
//! // "[0-9]{4}-[0-9]{2}"
//! let bytes = required_literal(alloc, &trees)?;
//! assert!(rt; &bytes[..] == b"-");
//! ```
pub mod laws;
pub mod literal;
mod shared;

pub use literal::required_literal;

//! For authors of determinizers: a scan as steps over ordered lists of NFA states, and the theorem that they find its
//! answer.

pub mod closure;
pub mod laws;
pub mod scan;

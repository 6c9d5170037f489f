//! What programs share: words of a command line that need not be text (`words`), options parted from operands
//! (`parted`), values of options as words of their own (`split`), whether an input is also the output (`output`), and
//! lines of a text (`line`, `stream`), also where a reader's buffer holds them (`held`, `passed`), with the errors of
//! reading and writing (`failure`).
#![tactic(auto)]

pub mod failure;
pub mod held;
pub mod line;
pub mod output;
pub mod parted;
pub mod passed;
pub mod split;
pub mod stream;
pub mod words;

//! Callers as users of the library would write them, with no proof file, or with the invariants of their loops: the
//! texts of groups, the lines of a text that match, searches in loops, the classes of a line, and a text with stars in
//! place of what a group holds. Others take a law of `nfa_engines` or `nfa_compiler`, whose premises they build from
//! what calls promise, and say what follows. Others list what engines and finders find, and say what their lists are.
#![tactic(auto)]

pub mod answers;
pub mod bounds;
pub mod capture_lists;
pub mod captures;
pub mod classifier;
pub mod clauses;
pub mod compiled;
pub mod ends;
pub mod finders;
pub mod halves;
pub mod histories;
pub mod hits;
pub mod lines;
pub mod loops;
pub mod matches;
pub mod modes;
pub mod order;
pub mod owner;
pub mod paths;
pub mod patterns;
pub mod pieces;
pub mod places;
pub mod redactor;
pub mod regexes;
pub mod sets;
pub mod spans;
pub mod sure;
pub mod texts;
pub mod work;
pub mod written;

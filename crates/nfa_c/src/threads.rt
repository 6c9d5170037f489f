//! Handles may move to another thread: a function that takes only what is `Send` takes them.

use crate::handle::NfaRegex;
use crate::set_handle::NfaSet;

/// Takes a value that may move to another thread.
fn may_move<T: Send>(_value: &T) {}

/// The handle of a regex may move to another thread.
fn regex_may_move(regex: &NfaRegex) {
    may_move(regex);
}

/// The handle of a set may move to another thread.
fn set_may_move(set: &NfaSet) {
    may_move(set);
}

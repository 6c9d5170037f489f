//! The edges of a state, in the order in which a search tries them.
use regex_search_core::StateID;
use std::alloc::{AllocError, Global};
use std::fmt;
use thompson_nfa::{Look, State, Transition, look_matches};

/// What a search needs to take an edge.
#[derive(Clone, Copy, Debug, PartialEq, Eq)]
pub enum Label {
    /// A byte from `start` to `end`, both included.
    Bytes { start: u8, end: u8 },
    /// That the assertion holds.
    Holds(Look),
    /// Nothing: the alternative of a union, by its index.
    Alternative(usize),
    /// Nothing.
    Free,
}

/// An edge of a state.
#[derive(Clone, Copy, Debug, PartialEq, Eq)]
pub struct Edge {
    pub label: Label,
    pub next: StateID,
}

impl Edge {
    fn on_bytes(trans: &Transition) -> Edge {
        let Transition { start, end, next } = *trans;
        let label = Label::Bytes { start, end };
        Edge { label, next }
    }

    fn holds(look: Look, next: StateID) -> Edge {
        let label = Label::Holds(look);
        Edge { label, next }
    }

    fn free(next: StateID) -> Edge {
        let label = Label::Free;
        Edge { label, next }
    }
}

impl Label {
    /// Returns where a search at this position of the haystack goes on, if it can take the edge.
    pub fn target(&self, haystack: &[u8], at: usize) -> Option<usize> {
        match *self {
            Label::Bytes { start, end } => {
                let byte = *haystack.get(at)?;
                (start <= byte && byte <= end).then_some(at + 1)
            }
            Label::Holds(look) => {
                (at <= haystack.len() && look_matches(look, haystack, at)).then_some(at)
            }
            Label::Alternative(_) | Label::Free => Some(at),
        }
    }

    /// Returns whether the edge reads a byte. A search takes only the first such edge that holds the byte.
    pub fn reads(&self) -> bool {
        matches!(self, Label::Bytes { .. })
    }
}

/// A byte as in a string of Graphviz: the character, if it is printable, and else its hexadecimal digits.
#[derive(Clone, Copy)]
struct Shown(u8);

impl fmt::Display for Shown {
    fn fmt<W: fmt::Write>(&self, f: &mut fmt::Formatter<W>) -> fmt::Result {
        let Shown(byte) = *self;
        match byte {
            b'"' => f.write_str("\\\""),
            b'\\' => f.write_str("\\\\"),
            0x21..=0x7e => write!(f, "{}", char::from(byte)),
            _ => write!(f, "\\\\x{byte:02x}"),
        }
    }
}

// An alternative has its number, from 1.
impl fmt::Display for Label {
    fn fmt<W: fmt::Write>(&self, f: &mut fmt::Formatter<W>) -> fmt::Result {
        match *self {
            Label::Bytes { start, end } if start == end => fmt::Display::fmt(&Shown(start), f),
            Label::Bytes { start, end } => write!(f, "{}-{}", Shown(start), Shown(end)),
            Label::Holds(look) => fmt::Debug::fmt(&look, f),
            Label::Alternative(index) => fmt::Display::fmt(&index.saturating_add(1), f),
            Label::Free => Ok(()),
        }
    }
}

/// Returns the edges of the state, in the order in which a search tries them.
pub fn edges_of(alloc: Global, state: &State) -> Result<Vec<Edge>, AllocError> {
    match state {
        State::ByteRange { trans } => one_edge(alloc, Edge::on_bytes(trans)),
        State::Sparse(transitions) => transitions.iter().map(Edge::on_bytes).collect(alloc),
        State::Dense(targets) => dense_edges(alloc, targets),
        State::Look { look, next } => one_edge(alloc, Edge::holds(*look, *next)),
        State::Union { alternates } => alternatives(alloc, alternates),
        State::BinaryUnion { alt1, alt2 } => alternatives(alloc, &[*alt1, *alt2]),
        State::Capture { next, .. } => one_edge(alloc, Edge::free(*next)),
        State::Fail | State::Match { .. } => Ok(Vec::new(alloc)),
    }
}

fn one_edge(alloc: Global, edge: Edge) -> Result<Vec<Edge>, AllocError> {
    let mut edges = Vec::new(alloc);
    edges.push(edge)?;
    Ok(edges)
}

fn alternatives(alloc: Global, targets: &[StateID]) -> Result<Vec<Edge>, AllocError> {
    let mut edges = Vec::with_capacity(alloc, targets.len())?;
    for (index, next) in targets.iter().enumerate() {
        edges.push(Edge {
            label: Label::Alternative(index),
            next: *next,
        })?;
    }
    Ok(edges)
}

/// The edges of a table of targets: one for each run of bytes that lead to one state.
fn dense_edges(alloc: Global, targets: &[Option<StateID>]) -> Result<Vec<Edge>, AllocError> {
    let mut edges = Vec::new(alloc);
    for (byte, target) in (0..=u8::MAX).zip(targets) {
        if let Some(next) = target {
            add_byte(&mut edges, byte, *next)?;
        }
    }
    Ok(edges)
}

/// Adds the byte to the last edge if that ends just before it and leads to the same state, and else as an edge.
fn add_byte(edges: &mut Vec<Edge>, byte: u8, next: StateID) -> Result<(), AllocError> {
    if let Some(last) = edges.last_mut()
        && last.next == next
        && let Label::Bytes { end, .. } = &mut last.label
        && end.checked_add(1) == Some(byte)
    {
        *end = byte;
        return Ok(());
    }
    let label = Label::Bytes {
        start: byte,
        end: byte,
    };
    edges.push(Edge { label, next })?;
    Ok(())
}

//! An NFA as a graph in the language of Graphviz.
use crate::edges::{Edge, edges_of};
use crate::path::{Path, Step};
use regex_search_core::StateID;
use std::alloc::Global;
use std::io;
use std::io::Write;
use thompson_nfa::{NFA, State};

/// What is marked in the graph.
#[derive(Drop)]
pub enum Marks {
    /// Nothing: there is no haystack.
    None,
    /// Nothing: there is no match in the haystack.
    NoMatch,
    /// The states and edges of this path.
    Path(Path),
}

impl Marks {
    /// Whether the path has this state.
    fn has_state(&self, state: usize) -> bool {
        match self {
            Marks::Path(path) => path.last == state
                || path.steps.iter().any(|step| step.state == state),
            Marks::None | Marks::NoMatch => false,
        }
    }

    /// Whether the path has this edge.
    fn has_edge(&self, wanted: Step) -> bool {
        match self {
            Marks::Path(path) => path.steps.contains(&wanted),
            Marks::None | Marks::NoMatch => false,
        }
    }
}

/// The arrow that is not written to its end, if there is one: its target, and whether it is marked.
type Arrow = Option<(StateID, bool)>;

/// Writes the graph, a node for each state with its number, and the edges from it, and flushes the output. Fails if the
/// output cannot be written, or if allocation failed.
pub fn write_graph<W: Write>(
    alloc: Global,
    out: &mut W,
    nfa: &NFA,
    marks: &Marks,
) -> io::Result<()> {
    write_head(out, nfa, marks)?;
    write_states(alloc, out, nfa, marks)?;
    out.write_all(b"}\n")?;
    out.flush()
}

/// Writes what comes before the states.
fn write_head<W: Write>(out: &mut W, nfa: &NFA, marks: &Marks) -> io::Result<()> {
    out.write_all(b"digraph nfa {\n  rankdir=LR;\n  node [shape=box];\n")?;
    write_title(out, marks)?;
    write_start(out, "anchored", nfa.start_anchored())?;
    write_start(out, "unanchored", nfa.start_unanchored())
}

fn write_states<W: Write>(alloc: Global, out: &mut W, nfa: &NFA, marks: &Marks) -> io::Result<()> {
    for (number, state) in nfa.states().iter().enumerate() {
        write_state(out, number, state, marks)?;
        let edges = edges_of(alloc, state)?;
        write_edges(out, number, &edges, marks)?;
    }
    Ok(())
}

fn write_title<W: Write>(out: &mut W, marks: &Marks) -> io::Result<()> {
    match marks {
        Marks::None => Ok(()),
        Marks::NoMatch => writeln!(out, "  label=\"no match\";"),
        Marks::Path(path) => {
            let pattern = path.pattern.as_usize();
            writeln!(
                out,
                "  label=\"pattern {pattern} at {}..{}\";",
                path.start, path.end
            )
        }
    }
}

/// A start state has an arrow from a word.
fn write_start<W: Write>(out: &mut W, word: &str, start: StateID) -> io::Result<()> {
    writeln!(out, "  {word} [shape=plaintext];")?;
    writeln!(out, "  {word} -> {};", start.as_usize())
}

fn write_state<W: Write>(
    out: &mut W,
    number: usize,
    state: &State,
    marks: &Marks,
) -> io::Result<()> {
    write!(out, "  {number} [label=\"{number}\\n")?;
    write_kind(out, state)?;
    write_mark(out, marks.has_state(number))
}

/// Writes the kind of the state, and the end of the label.
fn write_kind<W: Write>(out: &mut W, state: &State) -> io::Result<()> {
    match state {
        State::ByteRange { .. } => out.write_all(b"ByteRange\""),
        State::Sparse(_) => out.write_all(b"Sparse\""),
        State::Dense(_) => out.write_all(b"Dense\""),
        State::Look { .. } => out.write_all(b"Look\""),
        State::Union { .. } => out.write_all(b"Union\""),
        State::BinaryUnion { .. } => out.write_all(b"BinaryUnion\""),
        State::Capture { slot, .. } => write!(out, "Capture {slot}\""),
        State::Fail => out.write_all(b"Fail\""),
        State::Match { pattern_id } => {
            write!(out, "Match {}\", peripheries=2", pattern_id.as_usize())
        }
    }
}

/// Writes the edges of a state. Edges that follow one another and lead to one state share an arrow.
fn write_edges<W: Write>(
    out: &mut W,
    number: usize,
    edges: &[Edge],
    marks: &Marks,
) -> io::Result<()> {
    let mut open = None;
    for (index, edge) in edges.iter().enumerate() {
        let step = Step {
            state: number,
            edge: index,
        };
        let arrow = Some((edge.next, marks.has_edge(step)));
        open = write_edge(out, number, edge, open, arrow)?;
    }
    close_arrow(out, open)
}

/// Writes an edge of the state of this number. It is on this arrow, which may be the one that is open. Returns the
/// arrow that is open then.
fn write_edge<W: Write>(
    out: &mut W,
    number: usize,
    edge: &Edge,
    open: Arrow,
    arrow: Arrow,
) -> io::Result<Arrow> {
    if open == arrow {
        write!(out, ", {}", edge.label)?;
        return Ok(open);
    }
    close_arrow(out, open)?;
    let target = edge.next.as_usize();
    write!(out, "  {number} -> {target} [label=\"{}", edge.label)?;
    Ok(arrow)
}

fn close_arrow<W: Write>(out: &mut W, open: Arrow) -> io::Result<()> {
    match open {
        Some((_, marked)) => {
            out.write_all(b"\"")?;
            write_mark(out, marked)
        }
        None => Ok(()),
    }
}

fn write_mark<W: Write>(out: &mut W, marked: bool) -> io::Result<()> {
    if marked {
        out.write_all(b", color=red, penwidth=2];\n")
    } else {
        out.write_all(b"];\n")
    }
}

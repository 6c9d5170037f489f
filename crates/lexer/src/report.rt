//! A line for each token.
ghost use Rattle.std.specs.Prelude.{◌≡◌, ◌≤◌, IfOk, IfSome, List, OnOk, false, if◌then◌else◌, length, true};
ghost use Rattle.std.specs.Io.KnownBytes.{Appends};
ghost use Rattle.regex_hir.specs.Re.{Re};
ghost use Rattle.lexer.specs.Lexed.{stuck_in};
ghost use Rattle.lexer.specs.Positions.{position_at};
ghost use Rattle.lexer.specs.Rules.{Mean, rule_patterns};
ghost use Rattle.lexer.specs.Printed.{outcome_at, outcome_of, printed_pieces, printed_text, printed_tokens};

use crate::lexer::{Lexer, Prefer};
use crate::position::{Position, moved};
use crate::rules::Rule;
use crate::shown::{first_shown, shown_at};
use std::alloc::Global;
use std::io;
use std::io::{Read, Write};

/// How tokens are printed.
#[derive(Clone, Copy)]
pub struct Style<'s> {
    /// The names of the rules whose tokens are not printed.
    pub skip: &'s [&'s str],
    /// Whether each token is a JSON object.
    pub json: bool,
    /// Whether the lexer goes on where a token starts again.
    pub recover: bool,
    /// Whether the line and the column of each token are printed.
    pub positions: bool,
    /// Which rule gives a token.
    pub prefer: Prefer,
}

/// How the tokens of a text end.
#[derive(Clone, Copy)]
pub enum Outcome {
    /// They are the whole text.
    Whole,
    /// The lexer went on after text that no rule takes.
    Errors,
    /// No token starts at this offset, which has this position.
    Stuck(usize, Position),
}

/// A text, the rules of its tokens, and how they are printed.
#[derive(Clone, Copy)]
pub struct Report<'r, 't, 's> {
    pub alloc: Global,
    pub rules: &'r [Rule<'t>],
    pub style: Style<'s>,
    pub text: &'r [u8],
}

/// Reads the text to its end and prints its tokens but those of the rules to skip, up to the first place at which no
/// token starts, and returns how they end. If the style says that the lexer goes on, each longest stretch at which no
/// token starts has a line too. Fails if the input cannot be read, the output cannot be written or allocation failed;
/// nothing more is written then.
///
/// Requires a lexer of these rules.
///
/// If the reader and the writer have known bytes, the text is all that the reader had left, and the writer has taken
/// the lines of the tokens that the meanings of the rules give, or of the pieces, and nothing else.
pub fn run<R: Read + Drop, W: Write>(
    alloc: Global,
    lexer: &mut Lexer<'_>,
    rules: &[Rule<'_>],
    style: Style<'_>,
    mut input: R,
    out: &mut W,
) -> io::Result<Outcome>
    requires { lexer.old ≡ rule_patterns rules.now }
    ensures printed { OnOk result ((res : List Re) → Mean rules.now res
        → IfSome (R.remaining input) (λ text. Appends (W.contents out.old) (W.contents out.new)
        (printed_text style.entry rules.now res text))) }
    ensures outcome { IfOk result (λ outcome. (res : List Re) → Mean rules.now res
        → IfSome (R.remaining input) (λ text. outcome ≡ outcome_of style.entry res text)) }
{
    let mut text = Vec::new(alloc);
    input.read_to_end(&mut text)?;
    let report = Report {
        alloc,
        rules,
        style,
        text: &text,
    };
    report.print(lexer, out)
}

impl Report<'_, '_, '_> {
    /// Prints the tokens of the text, or its pieces, and returns how the tokens end.
    fn print<W: Write>(&self, lexer: &mut Lexer<'_>, out: &mut W) -> io::Result<Outcome>
        requires { lexer.old ≡ rule_patterns self.now.rules.now }
        ensures printed { OnOk result ((res : List Re) → Mean self.now.rules.now res
            → Appends (W.contents out.old) (W.contents out.new)
            (printed_text self.now.style self.now.rules.now res self.now.text.now)) }
        ensures outcome { IfOk result (λ outcome. (res : List Re) → Mean self.now.rules.now res
            → outcome ≡ outcome_of self.now.style res self.now.text.now) }
    {
        if self.style.recover {
            return self.print_pieces(lexer, out);
        }
        self.print_tokens(lexer, out)
    }

    /// Prints the pieces of the text, and returns how its tokens end.
    #[tactic(auto, using(crate::proofs::PositionLemmas::position_given))]
    fn print_pieces<W: Write>(&self, lexer: &mut Lexer<'_>, out: &mut W) -> io::Result<Outcome>
        requires { lexer.old ≡ rule_patterns self.now.rules.now }
        ensures printed { OnOk result ((res : List Re) → Mean self.now.rules.now res
            → Appends (W.contents out.old) (W.contents out.new)
            (printed_pieces self.now.style self.now.rules.now res self.now.text.now)) }
        ensures outcome { IfOk result (λ outcome. (res : List Re) → Mean self.now.rules.now res
            → outcome ≡ outcome_at true self.now.text.now (stuck_in self.now.style.prefer res self.now.text.now)) }
    {
        let mut whole = true;
        let mut position = first_shown(self.style.positions);
        let mut at = 0;
        while at < self.text.len() {
            let piece = lexer.piece_at(self.text, at, self.style.prefer);
            let span = piece.span();
            let shown = shown_at(self.text, span, position);
            self.write_piece(out, piece, &shown)?;
            whole &= piece.is_token();
            position = moved(position, self.text, at, span.end);
            at = span.end;
        }
        out.flush()?;
        Ok(ended(whole))
    }

    /// Prints the tokens of the text, and returns how they end.
    #[tactic(auto, using(crate::proofs::PositionLemmas::position_given))]
    fn print_tokens<W: Write>(&self, lexer: &mut Lexer<'_>, out: &mut W) -> io::Result<Outcome>
        requires { lexer.old ≡ rule_patterns self.now.rules.now }
        ensures printed { OnOk result ((res : List Re) → Mean self.now.rules.now res
            → Appends (W.contents out.old) (W.contents out.new)
            (printed_tokens self.now.style self.now.rules.now res self.now.text.now)) }
        ensures outcome { IfOk result (λ outcome. (res : List Re) → Mean self.now.rules.now res
            → outcome ≡ outcome_at false self.now.text.now (stuck_in self.now.style.prefer res self.now.text.now)) }
    {
        let mut position = first_shown(self.style.positions);
        let mut at = 0;
        while at < self.text.len() {
            let Some(token) = lexer.token_at(self.text, at, self.style.prefer) else {
                out.flush()?;
                return Ok(stuck_at(self.text, at));
            };
            let shown = shown_at(self.text, token.span, position);
            self.write_token(out, token.pattern, &shown)?;
            position = moved(position, self.text, at, token.span.end);
            at = token.span.end;
        }
        out.flush()?;
        Ok(Outcome::Whole)
    }
}

/// Returns the outcome if the lexer goes on after errors, by whether all pieces are tokens.
fn ended(whole: bool) -> Outcome
    ensures { result ≡ (if whole then Outcome.Whole else Outcome.Errors) }
{
    if whole {
        Outcome::Whole
    } else {
        Outcome::Errors
    }
}

/// Returns the outcome that no token starts at this place of the text.
fn stuck_at(text: &[u8], at: usize) -> Outcome
    requires { at ≤ length text.now }
    ensures { result ≡ Outcome.Stuck at (position_at text.now at) }
{
    Outcome::Stuck(at, Position::first().moved(text, 0, at))
}

//! The tokens of a text, one after the other, by anchored searches.
ghost use Rattle.std.specs.Prelude.{◌≡◌, ◌⊎◌, ◌≤◌, ◌<◌, ◌-◌, IfErr, IfOk, IfSome, List, Some, length, option_map};
ghost use Rattle.regex_hir.specs.Re.{Re};
ghost use Rattle.regex_search_core.specs.Found.{found_of};
ghost use Rattle.regex_search_core.specs.PatternSets.{number_of};
ghost use Rattle.regex_search_core.specs.Search.{search_of};
ghost use Rattle.nfa_engines.specs.Lists.{IsInside};
ghost use Rattle.nfa_engines.specs.Paths.{IsFindAnswer};
ghost use Rattle.nfa_meta.specs.ChoiceState.{kind_in};
ghost use Rattle.nfa_meta.specs.RegexState.{KeepsRegex};
ghost use Rattle.nfa_compiler.specs.Compiled.{AreMeant};
ghost use Rattle.nfa_compiler.specs.Rejected.{TextsFitIn};
ghost use Rattle.nfa_compiler.specs.Written.{byte_syntax};
ghost use Rattle.lexer.specs.Lexed.{LiesInText, PiecesAreLongest, PiecesAreTheText, TokensAreJoined};
ghost use Rattle.lexer.specs.Lexed.{TokensAreLongest, hit_there, is_token, longer, longest_there, own_hit, own_token};
ghost use Rattle.lexer.specs.Lexed.{piece_found, piece_span, piece_there, search_at, stretch_end, token_found};
ghost use Rattle.lexer.specs.Lexed.{token_there, with_bytes};
ghost use Rattle.lexer.specs.Rules.{rule_patterns, IsCompileMistake};

use crate::rules::{Rule, RulesError, compile};
use nfa_compiler::laws;
use nfa_meta::Regex;
use regex_search_core::{Anchored, Input, Match, PatternID, Span};
use std::alloc::Global;
use std::marker::Model;

/// Which rule gives the token at a place, if several match there.
#[derive(Clone, Copy, Debug, PartialEq, Eq)]
pub enum Prefer {
    /// The first one that matches.
    First,
    /// The first of those whose match is the longest.
    Longest,
}

/// A piece of the text, of at least one byte, and the pattern that it matches.
#[derive(Clone, Copy)]
pub struct Token {
    pub pattern: PatternID,
    pub span: Span,
}

/// A piece of the text, of at least one byte.
#[derive(Clone, Copy)]
pub enum Piece {
    Token(Token),
    /// A longest stretch at which no token starts.
    Error(Span),
}

impl Piece {
    /// Returns whether the piece is a token.
    pub fn is_token(self) -> bool
        ensures { result ≡ is_token (piece_found self) }
    {
        matches!(self, Piece::Token(_))
    }

    /// Returns where the piece is.
    pub fn span(self) -> Span
        ensures { result ≡ piece_span self }
    {
        match self {
            Piece::Token(token) => token.span,
            Piece::Error(span) => span,
        }
    }
}

/// Finds the tokens of texts. It owns one regex of the patterns of all rules.
///
/// A contract sees the texts of the patterns.
#[derive(Drop)]
pub struct Lexer<'r> {
    rules: &'r [Rule<'r>],
    regex: Regex,
}

impl<'r> Model for Lexer<'r> {
    ghost use Rattle.std.specs.Prelude.{List, ℕ};
    ghost use Rattle.nfa_meta.specs.Built.{IsRegexOf};
    ghost use Rattle.lexer.specs.Rules.{rule_patterns};

    ghost Value = { List (List ℕ) };

    ghost view = { λ l. rule_patterns l.rules.now };

    ghost invariant = { λ l. IsRegexOf (rule_patterns l.rules.now) l.regex };
}

/// The tokens of a text have no gap and no overlap: their texts, and what is after the last one, are the text.
pub fn tokens_are_joined()
    ensures { TokensAreJoined }
{}

/// The texts of the pieces are the text. Each piece is a token, or a stretch that ends where a token starts or at the
/// end of the text, and in which no token starts.
pub fn pieces_are_the_text()
    ensures joined { PiecesAreTheText }
    ensures longest { PiecesAreLongest }
{}

/// The longest token at a place is that of some rule. No rule has a longer one there, and no rule before it has one
/// that is as long.
pub fn tokens_are_longest()
    ensures { TokensAreLongest }
{}

impl<'r> Lexer<'r> {
    /// Makes a lexer of these rules. Fails if a pattern cannot be read, if the patterns are too large, or if allocation
    /// failed.
    pub fn new(alloc: Global, rules: &'r [Rule<'r>]) -> Result<Lexer<'r>, RulesError>
        ensures patterns { IfOk result (λ lexer. lexer ≡ rule_patterns rules.now) }
        ensures fits { IfOk result (λ _. TextsFitIn 10485760 byte_syntax (rule_patterns rules.now)) }
        ensures error { IfErr result (IsCompileMistake rules.now) }
    {
        let regex = compile(alloc, rules)?;
        Ok(Lexer { rules, regex })
    }

    /// Returns the hit at this place: of the first rule that matches there, as long as that rule prefers. It may be
    /// empty.
    fn hit_at(&mut self, text: &[u8], at: usize) -> Option<Match>
        requires { at ≤ length text.now }
        ensures hit { (res : List Re) → AreMeant byte_syntax self.old res
            → option_map found_of result ≡ hit_there res text.now at }
        ensures inside { IfSome result (λ m. IsInside (search_at text.now at) (found_of m)) }
        ensures kept { self.new ≡ self.old }
    {
        laws::searches_find_texts();
        let input = Input::new(text)
            .range(at..text.len())
            .anchored(Anchored::Yes);
        find(&mut self.regex, input)
    }

    /// Returns the match of this rule at this place, as long as the rule prefers. It may be empty.
    fn own_hit(&mut self, text: &[u8], at: usize, pattern: PatternID) -> Option<Match>
        requires { at ≤ length text.now }
        ensures hit { (res : List Re) → AreMeant byte_syntax self.old res
            → option_map found_of result ≡ own_hit res text.now at (number_of pattern) }
        ensures inside { IfSome result (λ m. IsInside (search_at text.now at) (found_of m)) }
        ensures kept { self.new ≡ self.old }
    {
        laws::searches_find_texts();
        let input = Input::new(text)
            .range(at..text.len())
            .anchored(Anchored::Pattern(pattern));
        find(&mut self.regex, input)
    }

    /// Returns the token of this rule at this place.
    fn own_token(&mut self, text: &[u8], at: usize, pattern: PatternID) -> Option<Token>
        requires { at ≤ length text.now }
        ensures token { (res : List Re) → AreMeant byte_syntax self.old res
            → option_map token_found result ≡ own_token res text.now at (number_of pattern) }
        ensures after { IfSome result (λ token. at < token.span.end) }
        ensures inside { IfSome result (λ token. LiesInText text.now token.span) }
        ensures kept { self.new ≡ self.old }
    {
        token_of(self.own_hit(text, at, pattern)?)
    }

    /// Returns the number of rules.
    fn rule_count(&self) -> usize
        ensures count { result ≡ length self.now }
        ensures small { result ≤ 2147483647 }
    {
        self.regex.pattern_len()
    }

    /// Returns the token of the first rule that matches at this place.
    fn first_at(&mut self, text: &[u8], at: usize) -> Option<Token>
        requires { at ≤ length text.now }
        ensures token { (res : List Re) → AreMeant byte_syntax self.old res
            → option_map token_found result ≡ with_bytes (hit_there res text.now at) }
        ensures after { IfSome result (λ token. at < token.span.end) }
        ensures inside { IfSome result (λ token. LiesInText text.now token.span) }
        ensures kept { self.new ≡ self.old }
    {
        token_of(self.hit_at(text, at)?)
    }

    /// Returns the longest of the tokens of all rules at this place, and of those that are as long the first.
    fn longest_at(&mut self, text: &[u8], at: usize) -> Option<Token>
        requires { at ≤ length text.now }
        ensures token { (res : List Re) → AreMeant byte_syntax self.old res
            → option_map token_found result ≡ longest_there res text.now at }
        ensures after { IfSome result (λ token. at < token.span.end) }
        ensures inside { IfSome result (λ token. LiesInText text.now token.span) }
        ensures kept { self.new ≡ self.old }
    {
        let mut best = None;
        let count = self.rule_count();
        for number in 0..count {
            let pattern = nth_pattern(number, count);
            best = longer(best, self.own_token(text, at, pattern));
        }
        best
    }

    /// Returns the token at this place.
    ///
    /// By [`Prefer::First`] it is that of the first rule that matches there, as long as that rule prefers. There is
    /// none if that rule prefers the empty string, even if a later one matches more. By [`Prefer::Longest`] it is the
    /// longest of the tokens that the rules prefer.
    pub fn token_at(&mut self, text: &[u8], at: usize, prefer: Prefer) -> Option<Token>
        requires { at ≤ length text.now }
        ensures token { (res : List Re) → AreMeant byte_syntax self.old res
            → option_map token_found result ≡ token_there prefer res text.now at }
        ensures after { IfSome result (λ token. at < token.span.end) }
        ensures inside { IfSome result (λ token. LiesInText text.now token.span) }
        ensures kept { self.new ≡ self.old }
    {
        match prefer {
            Prefer::First => self.first_at(text, at),
            Prefer::Longest => self.longest_at(text, at),
        }
    }

    /// Returns the piece at this place: the token there or, if there is none, the stretch up to the next place at which
    /// a token starts, or to the end.
    pub fn piece_at(&mut self, text: &[u8], at: usize, prefer: Prefer) -> Piece
        requires { at < length text.now }
        ensures piece { (res : List Re) → AreMeant byte_syntax self.old res
            → piece_found result ≡ piece_there prefer res text.now at }
        ensures after { at < (piece_span result).end }
        ensures inside { LiesInText text.now (piece_span result) }
        ensures kept { self.new ≡ self.old }
    {
        match self.token_at(text, at, prefer) {
            Some(token) => Piece::Token(token),
            None => Piece::Error(Span {
                start: at,
                end: self.next_token(text, at + 1, prefer),
            }),
        }
    }

    /// Returns the first place from this one on at which a token starts; the end of the text, if there is none.
    fn next_token(&mut self, text: &[u8], from: usize, prefer: Prefer) -> usize
        requires { from ≤ length text.now }
        ensures end { (res : List Re) → AreMeant byte_syntax self.old res
            → result ≡ stretch_end (token_there prefer res text.now) (length text.now - from) from }
        ensures from { from ≤ result }
        ensures within { result ≤ length text.now }
        ensures kept { self.new ≡ self.old }
    {
        for at in from..text.len() {
            if self.token_at(text, at, prefer).is_some() {
                return at;
            }
        }
        text.len()
    }
}

/// Returns the match of the search. All tokens are searched by this one call, so that the search is compiled into it.
fn find(regex: &mut Regex, input: Input<'_>) -> Option<Match>
    ensures answer { IsFindAnswer regex.old.choice.nfa (kind_in regex.old.choice) (search_of input.entry).earliest
        (search_of input.entry) (option_map found_of result) }
    ensures inside { IfSome result (λ m. IsInside (search_of input.entry) (found_of m)) }
    ensures keeps { KeepsRegex regex.old regex.new }
{
    regex.find(input)
}

/// Returns the pattern of this number, of `count` patterns.
fn nth_pattern(number: usize, count: usize) -> PatternID
    requires within { number < count }
    requires small { count ≤ 2147483647 }
    ensures { number_of result ≡ number }
{
    PatternID::new(number).unwrap()
}

/// Returns the longer of two tokens that start at one place; the first, if it is as long.
fn longer(first: Option<Token>, second: Option<Token>) -> Option<Token>
    ensures longer { option_map token_found result
        ≡ longer (option_map token_found first) (option_map token_found second) }
    ensures one { (result ≡ first) ⊎ (result ≡ second) }
{
    let Some(token) = first else {
        return second;
    };
    match second {
        Some(other) if token.span.end < other.span.end => Some(other),
        _ => Some(token),
    }
}

/// Returns the match as a token, if it has a byte at least.
fn token_of(found: Match) -> Option<Token>
    ensures token { option_map token_found result ≡ with_bytes (Some (found_of found)) }
    ensures bytes { IfSome result (λ token. ((found_of found).start < token.span.end)
        × (token.span.start ≡ (found_of found).start) × (token.span.end ≡ (found_of found).end)) }
{
    if found.start() < found.end() {
        Some(Token {
            pattern: found.pattern(),
            span: found.span(),
        })
    } else {
        None
    }
}

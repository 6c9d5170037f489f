//! The line and the column of a place in a text.
ghost use Rattle.std.specs.Prelude.{◌≡◌, ◌≤◌, ◌<◌, ◌+◌, ◌^◌, IfSome, length, option_map};
ghost use Rattle.lexer.specs.Positions.{ColumnsAreCounted, LinesAreCounted, continues_character, first_position};
ghost use Rattle.lexer.specs.Positions.{position_at, position_past};

/// The line of a place counts the line feeds before it, and in a line the column counts the bytes that do not continue
/// a character.
pub fn positions_are_counted()
    ensures lines { LinesAreCounted }
    ensures columns { ColumnsAreCounted }
{}

/// The line of a place in a text and its column in characters, both from 1.
#[derive(Clone, Copy)]
pub struct Position {
    pub line: usize,
    pub column: usize,
}

impl Position {
    /// Returns the position of the start of a text.
    pub fn first() -> Position
        ensures { result ≡ first_position }
    {
        Position { line: 1, column: 1 }
    }

    /// Returns the position of the later place `to` of the text. This one is of the place `from`.
    pub fn moved(self, text: &[u8], from: usize, to: usize) -> Position
        requires place { self ≡ position_at text.now from }
        requires order { from ≤ to }
        requires within { to ≤ length text.now }
        requires fits { length text.now < 2 ^ 63 }
        ensures { result ≡ position_at text.now to }
    {
        let mut position = self;
        for at in from..to {
            position = position.past(text[at]);
        }
        position
    }

    /// Returns the position after this byte. A byte that continues a character is in the column of that character.
    fn past(self, byte: u8) -> Position
        requires line { self.line + 1 < 2 ^ 64 }
        requires column { self.column + 1 < 2 ^ 64 }
        ensures { result ≡ position_past self byte }
    {
        if byte == b'\n' {
            return Position {
                line: self.line + 1,
                column: 1,
            };
        }
        if continues_character(byte) {
            return self;
        }
        Position {
            line: self.line,
            column: self.column + 1,
        }
    }
}

/// Returns whether the byte continues a character of UTF-8.
fn continues_character(byte: u8) -> bool
    ensures { result ≡ continues_character byte }
{
    0x80 <= byte && byte < 0xc0
}

/// Returns the position of the later place `to` of the text, if that of the place `from` is given.
pub fn moved(position: Option<Position>, text: &[u8], from: usize, to: usize) -> Option<Position>
    requires place { IfSome position (λ p. p ≡ position_at text.now from) }
    requires order { from ≤ to }
    requires within { to ≤ length text.now }
    requires fits { length text.now < 2 ^ 63 }
    ensures { result ≡ option_map (λ _. position_at text.now to) position }
{
    match position {
        Some(position) => Some(position.moved(text, from, to)),
        None => None,
    }
}

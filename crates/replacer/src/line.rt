//! A line and its end.
ghost use Rattle.std.specs.Prelude.{◌≡◌, []};
ghost use Rattle.replacer.specs.Printed.{feed_of, without_feed};

/// A text, and its end, which the pattern does not see.
#[derive(Clone, Copy)]
pub struct Line<'t> {
    pub text: &'t [u8],
    pub end: &'t [u8],
}

impl<'t> Line<'t> {
    /// Returns the line of these bytes. Its end is the line feed at their end, if there is one.
    pub fn of(bytes: &'t [u8]) -> Line<'t>
        ensures text { result.text.now ≡ without_feed bytes.now }
        ensures end { result.end.now ≡ feed_of bytes.now }
    {
        if bytes.is_empty() || bytes[bytes.len() - 1] != b'\n' {
            return Line {
                text: bytes,
                end: b"",
            };
        }
        Line {
            text: &bytes[..bytes.len() - 1],
            end: b"\n",
        }
    }

    /// Returns a text that is taken as a whole, and so has no end.
    pub fn whole(text: &'t [u8]) -> Line<'t>
        ensures text { result.text.now ≡ text.now }
        ensures end { result.end.now ≡ [] }
    {
        Line { text, end: b"" }
    }
}

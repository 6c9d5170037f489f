//! The case of the letters that are put in place of a match.
ghost use Rattle.std.specs.Prelude.{◌≡◌, ◌++◌, IfOk, OnOk, true};
ghost use Rattle.replacer.specs.Cased.{after_byte, after_escape, cased, cased_byte, casing_after, in_case, or_case};
ghost use Rattle.replacer.specs.Cased.{uncased};

use std::alloc::AllocError;

/// An escape that says in which case the letters after it are printed. Only those of ASCII have another case.
#[derive(Clone, Copy, Debug, PartialEq, Eq)]
pub enum CaseEscape {
    /// `\E`: as they are.
    End,
    /// `\U`: in upper case.
    Upper,
    /// `\L`: in lower case.
    Lower,
    /// `\u`: the next byte in upper case.
    FirstUpper,
    /// `\l`: the next byte in lower case.
    FirstLower,
}

/// The case in which a letter is printed.
#[derive(Clone, Copy, Debug, PartialEq, Eq)]
pub enum Case {
    /// Its own.
    Kept,
    Upper,
    Lower,
}

impl Case {
    /// Returns this case, or the other one if this is `Kept`.
    fn or(self, other: Case) -> Case
        ensures { result ≡ or_case self other }
    {
        match self {
            Case::Kept => other,
            Case::Upper => Case::Upper,
            Case::Lower => Case::Lower,
        }
    }

    /// Returns the byte in this case.
    fn byte(self, byte: u8) -> u8
        ensures { result ≡ in_case self byte }
    {
        match self {
            Case::Kept => byte,
            Case::Upper => byte.to_ascii_uppercase(),
            Case::Lower => byte.to_ascii_lowercase(),
        }
    }
}

/// The case of the bytes that come next.
#[derive(Clone, Copy, Debug, PartialEq, Eq)]
pub struct Casing {
    /// That of the next one, if it is another one than that of the rest.
    pub first: Case,
    pub rest: Case,
}

impl Casing {
    /// The casing at the start of a template: letters stay as they are.
    pub fn new() -> Casing
        ensures { result ≡ uncased }
    {
        Casing {
            first: Case::Kept,
            rest: Case::Kept,
        }
    }

    /// Returns the casing after this escape.
    pub fn after_escape(self, escape: CaseEscape) -> Casing
        ensures { result ≡ after_escape self escape }
    {
        match escape {
            CaseEscape::End => Casing {
                rest: Case::Kept,
                ..self
            },
            CaseEscape::Upper => Casing {
                rest: Case::Upper,
                ..self
            },
            CaseEscape::Lower => Casing {
                rest: Case::Lower,
                ..self
            },
            CaseEscape::FirstUpper => Casing {
                first: Case::Upper,
                ..self
            },
            CaseEscape::FirstLower => Casing {
                first: Case::Lower,
                ..self
            },
        }
    }

    /// Returns whether letters stay as they are.
    pub fn keeps(self) -> bool
        ensures { result ≡ true → self ≡ uncased }
    {
        self == Casing::new()
    }

    /// Returns the casing after a byte.
    fn after_byte(self) -> Casing
        ensures { result ≡ after_byte self }
    {
        Casing {
            first: Case::Kept,
            ..self
        }
    }

    /// Returns the next byte, with the case that it gets.
    fn byte(self, byte: u8) -> u8
        ensures { result ≡ cased_byte self byte }
    {
        self.first.or(self.rest).byte(byte)
    }
}

/// Appends the bytes with the case that they get. Returns the casing after them. The only error is that allocation
/// failed.
pub fn push_cased(text: &mut Vec<u8>, casing: Casing, bytes: &[u8]) -> Result<Casing, AllocError>
    ensures text { OnOk result (text.new.items ≡ text.old.items ++ cased casing bytes.now) }
    ensures after { IfOk result (λ next. next ≡ casing_after casing bytes.now) }
{
    let mut casing = casing;
    for byte in bytes {
        text.push(casing.byte(*byte))?;
        casing = casing.after_byte();
    }
    Ok(casing)
}

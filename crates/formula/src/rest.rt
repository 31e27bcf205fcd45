ghost use Rattle.std.specs.Prelude.{◌+◌, ◌^◌, ◌<◌, length};

use crate::token::Token;

/// What is left of a formula, and the place where it begins.
#[derive(Clone, Copy)]
pub struct Rest<'a> {
    pub bytes: &'a [u8],
    pub place: usize,
    ghost fits: { place + length bytes.now < 2 ^ 64 },
}

/// A token with the place where it begins, and what is left behind it.
#[derive(Clone, Copy)]
pub struct Placed<'a> {
    pub token: Token<'a>,
    pub at: usize,
    pub rest: Rest<'a>,
}

impl<'a> From<&'a [u8]> for Rest<'a> {
    ghost use Rattle.std.specs.Prelude.{◌≡◌};
    ghost use Rattle.formula.specs.Cuts.{cut, cut_rest};

    ghost from_gives = { λ formula rest. cut_rest rest ≡ cut formula.now };

    /// The whole of a formula.
    fn from(formula: &'a [u8]) -> Rest<'a> {
        Rest {
            bytes: formula,
            place: 0,
        }
    }
}

impl<'a> Rest<'a> {
    ghost use Rattle.std.specs.Prelude.{◌≡◌, ◌≤◌, drop};

    /// What is left behind so many bytes more.
    pub(crate) fn skip(self, count: usize) -> Rest<'a>
        requires { count ≤ length self.bytes.now }
        ensures bytes { result.bytes.now ≡ drop count self.entry.bytes.now }
        ensures place { result.place ≡ self.entry.place + count }
    {
        Rest {
            bytes: &self.bytes[count..],
            place: self.place + count,
        }
    }

    /// The place where the formula ends.
    pub(crate) fn end(&self) -> usize
        ensures { result ≡ self.now.place + length self.now.bytes.now }
    {
        self.place + self.bytes.len()
    }
}

ghost use Rattle.std.specs.Prelude.{◌≡◌, ◌^◌, ◌<◌, length};
ghost use Rattle.formula.specs.Tokens.{said, spelled};

use lexicon::side::Side;

/// What joins the items of a formula.
#[derive(Clone, Copy, PartialEq, Eq, Debug)]
pub enum Join {
    And,
    Or,
}

/// Round brackets only group; braces make what they hold optional.
#[derive(Clone, Copy, PartialEq, Eq, Debug)]
pub enum Bracket {
    Round,
    Brace,
}

/// A token, which borrows a connector's name from the formula.
#[derive(Clone, Copy, PartialEq, Eq, Debug)]
pub enum Token<'a> {
    Mark(Join),
    Open(Bracket),
    Close(Bracket),
    Connector { name: &'a [u8], side: Side },
}

impl<'a> Token<'a> {
    /// How many bytes of the formula it takes.
    pub(crate) fn len(&self) -> usize
        requires { length (spelled (said self.now)) < 2 ^ 64 }
        ensures { result ≡ length (spelled (said self.now)) }
    {
        match *self {
            Token::Mark(Join::Or) => 2,
            Token::Connector { name, side: _ } => name.len() + 1,
            _ => 1,
        }
    }
}

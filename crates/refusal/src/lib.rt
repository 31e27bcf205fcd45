//! Why the engine refuses an input: the one list of refusals, each with its number.
//!
//! - `fault`: a refusal with the place, or the line and the place, where it came.

#![tactic(auto)]

ghost use Rattle.std.specs.Prelude.{◌≡◌};
ghost use Rattle.refusal.specs.Refusals.{number_of};

use thiserror::Error;

pub mod fault;

/// What was wrong, by whose hand it came, with the number by which it is cited.
#[derive(Clone, Copy, PartialEq, Eq, Debug, Error)]
pub enum Refusal {
    // who writes a dictionary
    #[error("the line is not words, one tab and a formula")]
    LineForm = 11,
    #[error("no token begins with this mark")]
    UnknownMark = 12,
    #[error("the formula allows no such token here")]
    OutOfPlace = 13,
    #[error("brackets are open 16 deep already")]
    TooDeep = 14,
    #[error("the connector's name has no sign or more than 8 bytes")]
    BadName = 15,
    #[error("the formula has more than 64 ways")]
    ManyWays = 16,
    #[error("a disjunct has more than 8 connectors on one side")]
    LongList = 17,
    #[error("a word of the line is defined already or stands twice")]
    WordTaken = 18,
    #[error("the table is too short or would hold more than 256 words")]
    TableShort = 19,
    #[error("a chain has 1 to 64 words")]
    ChainSize = 20,
    // who edits a sentence
    #[error("the folio holds 40 words already")]
    FolioFull = 21,
    #[error("the folio has no words")]
    NoWords = 22,
    #[error("there is no such position")]
    NoPosition = 23,
    #[error("the word has no such disjunct")]
    NoDisjunct = 24,
    #[error("the sum over all linkages is nothing")]
    NothingStands = 25,
    // who lends memory
    #[error("too few cells were lent")]
    FewCells = 31,
    #[error("too few places for choices or links were lent")]
    ShortLoan = 32,
    #[error("the input has more than 32768 bytes")]
    LongInput = 33,
    // who files a linkage
    #[error("there is not one choice for each word")]
    ChoiceCount = 41,
    #[error("a choice names no disjunct of its word")]
    NoChoice = 42,
    #[error("a choice names a struck disjunct")]
    StruckChoice = 43,
    #[error("a link's ends do not rise or lie outside the sentence")]
    LinkEnds = 44,
    #[error("the links do not strictly rise")]
    LinkOrder = 45,
    #[error("two links cross")]
    Crossing = 46,
    #[error("a word has a wrong number of links")]
    LinkCount = 47,
    #[error("the connectors at a link's ends do not match")]
    NoMatch = 48,
}

impl Refusal {
    /// The number by which a refusal is cited.
    pub fn number(&self) -> u8
        ensures { result ≡ number_of self.now }
    {
        *self as u8
    }
}

use crate::bounded::Bounded;

/// A formula has at most so many ways.
pub const MOST_WAYS: usize = 64;

/// A disjunct has at most so many connectors on one side.
pub const LONGEST_LIST: usize = 8;

/// A connector's name has at most so many bytes.
pub const LONGEST_NAME: usize = 8;

/// The name of a connector.
// Its bytes, and not a loan from the formula: a formula may go while its disjuncts stay, and a loan takes twice the room.
pub type Name = Bounded<u8, LONGEST_NAME>;

/// The connectors of one side of a word by name, the nearest first.
pub type Names = Bounded<Name, LONGEST_LIST>;

/// A way of meeting a formula. A side that is too long to be a list of a disjunct is none.
#[derive(Clone, Copy, Default)]
pub struct Way {
    pub left: Option<Names>,
    pub right: Option<Names>,
}

/// The ways of a formula, in order.
pub type Listing = Bounded<Way, MOST_WAYS>;

/// The ways of a formula, or none where there are too many.
pub type Ways = Option<Listing>;

/// What a formula asks for in one way: the connectors on each side.
#[derive(Clone, Copy, PartialEq, Eq, Default, Debug)]
pub struct Disjunct {
    pub left: Names,
    pub right: Names,
}

/// The disjuncts of a formula, in order.
pub type Disjuncts = Bounded<Disjunct, MOST_WAYS>;

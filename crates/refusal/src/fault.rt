ghost use Rattle.std.specs.Prelude.{◌≡◌};
ghost use Rattle.refusal.specs.Faults.{of_line};

use crate::Refusal;
use thiserror::Error;

/// A refusal of a line, and the place in the line's formula, from 0; 0 where it is not of the formula.
#[derive(Clone, Copy, PartialEq, Eq, Debug, Error)]
#[error("place {place}: refused with {}: {refusal}", .refusal.number())]
pub struct LineFault {
    pub place: usize,
    pub refusal: Refusal,
}

impl From<Refusal> for LineFault {
    ghost from_gives = { λ r f. f ≡ of_line r };

    fn from(refusal: Refusal) -> LineFault {
        LineFault { place: 0, refusal }
    }
}

/// A refusal with where it came: the line of the input, from 1, and the place in the line's formula, from 0.
#[derive(Clone, Copy, PartialEq, Eq, Debug, Error)]
#[error("line {line}, place {place}: refused with {}: {refusal}", .refusal.number())]
pub struct Fault {
    pub line: usize,
    pub place: usize,
    pub refusal: Refusal,
}

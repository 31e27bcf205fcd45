ghost use Rattle.std.specs.Prelude.{◌≡◌, ℕ, ◌≤◌, Decides, length, map, refl, ◌==◌};
ghost use Rattle.std.specs.List.{prefix_len};
ghost use Rattle.formula.specs.Cuts.{capital};
ghost use Rattle.written.specs.Matching.{Matching, agree, endings_match, names_match};

/// The letter that agrees with every letter.
const STAR: u16 = 42;

/// A letter of a name: a byte of a text, or a cell of a table.
pub(crate) trait Letter: Copy + PartialEq {
    ghost code: { Self → ℕ };

    /// What letters of different kinds are told apart by.
    fn code(self) -> u16
        ensures { result ≡ code self };

    ghost told_apart: { (x y : Self) → Self.eq x y ≡ (code x == code y) };
}

impl Letter for u8 {
    ghost code = { λ x. x };

    ghost told_apart = { λ x y. refl };

    fn code(self) -> u16 {
        u16::from(self)
    }
}

impl Letter for u16 {
    ghost code = { λ x. x };

    ghost told_apart = { λ x y. refl };

    fn code(self) -> u16 {
        self
    }
}

fn is_capital(letter: u16) -> bool
    ensures { result ≡ capital letter }
{
    matches!(letter, 65..=90)
}

/// How many capitals a name begins with.
fn capital_count<L: Letter>(name: &[L]) -> usize
    ensures within { result ≤ length name.now }
    ensures value { result ≡ prefix_len capital (map L.code name.now) }
{
    name.iter().take_while(|x| is_capital(x.code())).count()
}

/// Whether two letters of two endings agree.
fn agree(x: u16, y: u16) -> bool
    ensures { result ≡ agree x y }
{
    x == y || x == STAR || y == STAR
}

/// Whether two endings agree, the shorter one continued with stars.
fn endings_match<L: Letter>(a: &[L], b: &[L]) -> bool
    ensures { result ≡ endings_match (map L.code a.now) (map L.code b.now) }
{
    a.iter().zip(b).all(|(x, y)| agree(x.code(), y.code()))
}

/// Whether two names match.
pub(crate) fn names_match<L: Letter>(a: &[L], b: &[L]) -> bool
    ensures { result ≡ names_match (map L.code a.now) (map L.code b.now) }
{
    let (a_capitals, a_ending) = a.split_at(capital_count(a));
    let (b_capitals, b_ending) = b.split_at(capital_count(b));
    a_capitals == b_capitals && endings_match(a_ending, b_ending)
}

/// Whether two names of connectors match.
pub fn matching(a: &[u8], b: &[u8]) -> bool
    ensures value { result ≡ names_match a.now b.now }
    ensures law { Decides result (Matching a.now b.now) }
{
    names_match(a, b)
}

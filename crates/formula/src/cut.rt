ghost use Rattle.std.specs.Prelude.{◌≡◌, ℕ, ◌+◌, ◌<◌, ◌≤◌, Bool, true, length, drop, IfSome, IfOk, ◌≢◌, slice_index};
ghost use Rattle.std.specs.List.{prefix_len};
ghost use Rattle.formula.specs.Cuts.{capital, name_length, cut_rest, next_cut, token_at, said_there};
ghost use Rattle.formula.specs.Tokens.{said, spelled};

use crate::name::name_at;
use crate::rest::{Placed, Rest};
use crate::token::{Bracket, Join, Token};
use crate::way::LONGEST_NAME;
use lexicon::side::Side;
use refusal::Refusal;
use refusal::fault::LineFault;

/// How many bytes at the front pass a test.
fn run<P: Fn(u8) -> bool>(bytes: &[u8], passes: P) -> usize
    requires { P.IsAlwaysCallable passes }
    ensures within { result ≤ length bytes.now }
    ensures value { (p : ℕ → Bool) → ((b : ℕ) (r : Bool) → b < 256 → P.post passes b r → r ≡ p b) → result ≡ prefix_len p bytes.now }
{
    bytes
        .iter()
        .position(|b| !passes(*b))
        .unwrap_or(bytes.len())
}

/// How many bytes a name at the front takes: its capitals, then small letters and stars.
pub(crate) fn name_length(bytes: &[u8]) -> usize
    ensures value { result ≡ name_length bytes.now }
    ensures within { result ≤ length bytes.now }
{
    let capitals = run(bytes, |b| b.is_ascii_uppercase());
    capitals + run(&bytes[capitals..], |b| b.is_ascii_lowercase() || b == b'*')
}

/// The connector whose name begins at the front.
fn connector<'a>(bytes: &'a [u8]) -> Result<Token<'a>, Refusal>
    requires { (0 < length bytes.now) × (capital (slice_index bytes.now 0) ≡ true) }
    ensures says { token_at (slice_index bytes.now 0) (drop 1 bytes.now) ≡ said_there result }
    ensures within { IfOk result (λ t. length (spelled (said t)) ≤ length bytes.now) }
    ensures short { IfOk result (λ t. length (spelled (said t)) ≤ 9) }
{
    let name = name_at(bytes, 0);
    if name.len() > LONGEST_NAME {
        return Err(Refusal::BadName);
    }
    let side = match bytes.get(name.len()) {
        Some(b'+') => Side::Right,
        Some(b'-') => Side::Left,
        _ => return Err(Refusal::BadName),
    };
    Ok(Token::Connector { name, side })
}

/// The token at the front, where no space stands.
fn token<'a>(bytes: &'a [u8]) -> Result<Token<'a>, Refusal>
    requires { 0 < length bytes.now }
    ensures says { token_at (slice_index bytes.now 0) (drop 1 bytes.now) ≡ said_there result }
    ensures within { IfOk result (λ t. length (spelled (said t)) ≤ length bytes.now) }
    ensures short { IfOk result (λ t. length (spelled (said t)) ≤ 9) }
{
    match bytes {
        [b'A'..=b'Z', ..] => connector(bytes),
        [b'o', b'r', ..] => Ok(Token::Mark(Join::Or)),
        [b'&', ..] => Ok(Token::Mark(Join::And)),
        [b'(', ..] => Ok(Token::Open(Bracket::Round)),
        [b'{', ..] => Ok(Token::Open(Bracket::Brace)),
        [b')', ..] => Ok(Token::Close(Bracket::Round)),
        [b'}', ..] => Ok(Token::Close(Bracket::Brace)),
        _ => Err(Refusal::UnknownMark),
    }
}

impl<'a> Rest<'a> {
    /// What is left behind the spaces at the front. Only spaces are skipped; every other byte begins a token or is refused.
    fn behind_spaces(self) -> Rest<'a>
        ensures cuts { cut_rest self.entry ≡ cut_rest result }
        ensures within { length result.bytes.now ≤ length self.entry.bytes.now }
        ensures stops { 0 < length result.bytes.now → slice_index result.bytes.now 0 ≢ 32 }
        ensures end { result.place + length result.bytes.now ≡ self.entry.place + length self.entry.bytes.now }
    {
        self.skip(run(self.bytes, |b| b == b' '))
    }

    /// The next token, or none at the formula's end.
    pub(crate) fn next(self) -> Result<Option<Placed<'a>>, LineFault>
        ensures cuts { cut_rest self.entry ≡ next_cut self.entry result }
        ensures on { IfOk result (λ o. IfSome o (λ p. length p.rest.bytes.now < length self.entry.bytes.now)) }
        ensures short { IfOk result (λ o. IfSome o (λ p. length (spelled (said p.token)) ≤ 9)) }
    {
        let front = self.behind_spaces();
        if front.bytes.is_empty() {
            return Ok(None);
        }
        let at = front.place;
        let token = token(front.bytes).map_err(|refusal| LineFault { place: at, refusal })?;
        let rest = front.skip(token.len());
        Ok(Some(Placed { token, at, rest }))
    }
}

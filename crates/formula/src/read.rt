ghost use Rattle.std.specs.Prelude.{◌≡◌, ◌<◌, length, IfSome, IfOk};
ghost use Rattle.formula.specs.Progress.{goes, Further, Closing, EmptyPair, ItemRead, FormulaRead, InsideRead, MoreRead, Parsed, StandsFor, Joined};
ghost use Rattle.formula.specs.Formulas.{Formula, Item, longer as with_item};

use crate::depth::Depth;
use crate::make::{bracketed, empty, join, one};
use crate::rest::Rest;
use crate::token::{Bracket, Join, Token};
use crate::way::Ways;
use refusal::Refusal;
use refusal::fault::LineFault;

// What is left changes with each call and the depth does not: so they go side by side, as one struct would be taken apart again at each.
// Three types: what was read has no mark, a row may have one, and what follows has one. One type over the mark would say `()` for none, which is no plainer.

/// What was read, and what is left behind it.
#[derive(Clone, Copy)]
pub struct Reading<'a> {
    pub ways: Ways,
    pub rest: Rest<'a>,
}

/// A formula that may go on: the mark that joins its items, once it has two.
#[derive(Clone, Copy)]
pub struct Row<'a> {
    pub ways: Ways,
    pub join: Option<Join>,
    pub rest: Rest<'a>,
}

/// A mark and the item behind it, and what is left behind both.
#[derive(Clone, Copy)]
pub struct Next<'a> {
    pub mark: Join,
    pub ways: Ways,
    pub rest: Rest<'a>,
}

/// Whether a formula goes on with a mark: one item with either, a row only with its own.
fn goes_on(join: Option<Join>, mark: Join) -> bool
    ensures { result ≡ goes join mark }
{
    join.is_none_or(|own| own == mark)
}

/// What is left behind the bracket that must close next.
fn closing<'a>(rest: Rest<'a>, bracket: Bracket) -> Result<Rest<'a>, LineFault>
    ensures reads { Closing rest.entry bracket result }
    ensures on { IfOk result (λ r. length r.bytes.now < length rest.entry.bytes.now) }
{
    let Some(placed) = rest.next()? else {
        return Err(LineFault {
            place: rest.end(),
            refusal: Refusal::OutOfPlace,
        });
    };
    match placed.token {
        Token::Close(closed) if closed == bracket => Ok(placed.rest),
        _ => Err(LineFault {
            place: placed.at,
            refusal: Refusal::OutOfPlace,
        }),
    }
}

/// What is left behind a round bracket that closes at once, if it does.
fn empty_pair<'a>(rest: Rest<'a>, bracket: Bracket) -> Result<Option<Rest<'a>>, LineFault>
    ensures reads { EmptyPair rest.entry bracket result }
    ensures on { IfOk result (λ o. IfSome o (λ r. length r.bytes.now < length rest.entry.bytes.now)) }
{
    let Bracket::Round = bracket else {
        return Ok(None);
    };
    let Some(placed) = rest.next()? else {
        return Ok(None);
    };
    match placed.token {
        Token::Close(Bracket::Round) => Ok(Some(placed.rest)),
        _ => Ok(None),
    }
}

/// A connector, an empty pair, or a formula in brackets.
#[cycle(readers)]
fn item_at<'a>(rest: Rest<'a>, depth: Depth) -> Result<Reading<'a>, LineFault>
    ensures reads { ItemRead rest.entry depth.count result }
    ensures on { Further rest.entry result }
{
    let Some(placed) = rest.next()? else {
        return Err(LineFault {
            place: rest.end(),
            refusal: Refusal::OutOfPlace,
        });
    };
    match placed.token {
        Token::Connector { name, side } => Ok(Reading {
            ways: one(name, side),
            rest: placed.rest,
        }),
        Token::Open(bracket) => {
            let Some(deeper) = depth.deeper() else {
                return Err(LineFault {
                    place: placed.at,
                    refusal: Refusal::TooDeep,
                });
            };
            inside_at(placed.rest, deeper, bracket)
        }
        _ => Err(LineFault {
            place: placed.at,
            refusal: Refusal::OutOfPlace,
        }),
    }
}

/// What stands inside a bracket that was opened, with the bracket that closes it.
#[cycle(readers)]
fn inside_at<'a>(rest: Rest<'a>, depth: Depth, bracket: Bracket) -> Result<Reading<'a>, LineFault>
    ensures reads { InsideRead rest.entry depth.count bracket result }
    ensures on { Further rest.entry result }
{
    if let Some(behind) = empty_pair(rest, bracket)? {
        return Ok(Reading {
            ways: empty(),
            rest: behind,
        });
    }
    let inside = formula_at(rest, depth)?;
    let behind = closing(inside.rest, bracket)?;
    Ok(Reading {
        ways: bracketed(bracket, &inside.ways),
        rest: behind,
    })
}

/// The mark that comes next and the item behind it, if the row goes on with that mark.
#[cycle(readers)]
fn more_of<'a>(
    rest: Rest<'a>,
    own: Option<Join>,
    depth: Depth,
) -> Result<Option<Next<'a>>, LineFault>
    ensures reads { MoreRead rest.entry own depth.count result }
    ensures on { IfOk result (λ o. IfSome o (λ n. length n.rest.bytes.now < length rest.entry.bytes.now)) }
{
    let Some(placed) = rest.next()? else {
        return Ok(None);
    };
    let Token::Mark(mark) = placed.token else {
        return Ok(None);
    };
    if !goes_on(own, mark) {
        return Ok(None);
    }
    let item = item_at(placed.rest, depth)?;
    Ok(Some(Next {
        mark,
        ways: item.ways,
        rest: item.rest,
    }))
}

/// A row with one item more.
fn longer<'a>(row: &Row<'a>, next: &Next<'a>) -> Row<'a>
    ensures joins { (f : Formula) (i : Item) → StandsFor row.now f → Joined next.now f i → StandsFor result (with_item f next.now.mark i) }
    ensures rest { result.rest ≡ next.now.rest }
{
    Row {
        ways: join(next.mark, &row.ways, &next.ways),
        join: Some(next.mark),
        rest: next.rest,
    }
}

/// One item, or items that are all joined by one mark.
#[cycle(readers)]
fn formula_at<'a>(rest: Rest<'a>, depth: Depth) -> Result<Reading<'a>, LineFault>
    ensures reads { FormulaRead rest.entry depth.count result }
    ensures on { Further rest.entry result }
{
    let first = item_at(rest, depth)?;
    let mut row = Row {
        ways: first.ways,
        join: None,
        rest: first.rest,
    };
    while let Some(next) = more_of(row.rest, row.join, depth)? {
        row = longer(&row, &next);
    }
    Ok(Reading {
        ways: row.ways,
        rest: row.rest,
    })
}

/// The ways of a whole formula.
pub fn parse(formula: &[u8]) -> Result<Ways, LineFault>
    ensures { Parsed formula.now result }
{
    let whole = formula_at(Rest::from(formula), Depth::top())?;
    match whole.rest.next()? {
        None => Ok(whole.ways),
        Some(placed) => Err(LineFault {
            place: placed.at,
            refusal: Refusal::OutOfPlace,
        }),
    }
}

ghost use Rattle.std.specs.Prelude.{◌≡◌, not};
ghost use Rattle.linkage.specs.Lists.{every};
ghost use Rattle.linkage.specs.Linkages.{crosses};
ghost use Rattle.linkage.specs.Links.{ends};
ghost use Rattle.filing.specs.Filings.{ordered, pairs, rises};

use linkage::link::Link;

/// Whether each link rises and ends within the words.
pub(crate) fn all_rise(links: &[Link], words: usize) -> bool
    ensures { result ≡ every (rises words) (pairs links.now) }
{
    links
        .iter()
        .all(|link| link.left < link.right && link.right < words)
}

/// Whether links stand in order, each once.
pub(crate) fn in_order(links: &[Link]) -> bool
    ensures { result ≡ ordered (pairs links.now) }
{
    links.is_sorted_by(|one, other| one.precedes(other))
}

fn cross(one: &Link, other: &Link) -> bool
    ensures { result ≡ crosses (ends one.now) (ends other.now) }
{
    one.left < other.left && other.left < one.right && one.right < other.right
}

/// Whether a link crosses none of the others into their right.
fn crosses_none(link: &Link, links: &[Link]) -> bool
    ensures { result ≡ every (λ f. not (crosses (ends link.now) f)) (pairs links.now) }
{
    links.iter().all(|other| !cross(link, other))
}

/// Whether no two links cross.
pub(crate) fn none_cross(links: &[Link]) -> bool
    ensures { result ≡ every (λ e. every (λ f. not (crosses e f)) (pairs links.now)) (pairs links.now) }
{
    links.iter().all(|link| crosses_none(link, links))
}

ghost use Rattle.std.specs.Prelude.{◌≡◌, [], length, slice_index_or};
ghost use Rattle.written.specs.Lines.{formula_part, lines};

use written::line::unended;

// Lines are cut in two functions, as no function can hand the iterator out: there is no impl Trait as a result.

/// How many lines a text has.
pub(crate) fn line_count(text: &[u8]) -> usize
    ensures { result ≡ length (lines text.now) }
{
    if text.is_empty() {
        return 0;
    }
    unended(text).split(|b| *b == b'\n').count()
}

/// A line of a text, counted from 0; nothing past the last line.
pub(crate) fn line_at(text: &[u8], number: usize) -> &[u8]
    ensures { result.now ≡ slice_index_or (lines text.now) number [] }
{
    unended(text)
        .split(|b| *b == b'\n')
        .nth(number)
        .unwrap_or(&[])
}

/// The formula of a line: what stands behind its first tab.
pub(crate) fn formula_of(line: &[u8]) -> &[u8]
    ensures { result.now ≡ formula_part line.now }
{
    match line.iter().position(|b| *b == b'\t') {
        Some(tab) => &line[tab + 1..],
        None => &[],
    }
}

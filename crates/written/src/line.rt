ghost use Rattle.std.specs.Prelude.{◌≡◌, ◌<◌, true, false, [], length, take, MatchResult};
ghost use Rattle.refusal.specs.declared.Refusal.TheVariants.{LineForm};
ghost use Rattle.written.specs.Lines.{lines, pieces, words_part, formula_part, good_word, good_line, every, any_known};
ghost use Rattle.written.specs.Model.{among};
ghost use Rattle.written.specs.Store.{word_cells};

use refusal::Refusal;

// Words stay bytes that are parted by spaces: there is no memory for a list of them, and no function hands an iterator out. So each loop over them cuts
// them, and they go beside the disjuncts and the new names of their line.

/// A word has at most so many bytes.
const LONGEST_WORD: usize = 24;

/// A line's words, parted by single spaces, and the formula that they share.
#[derive(Clone, Copy)]
pub struct Parts<'a> {
    pub words: &'a [u8],
    pub formula: &'a [u8],
}

/// Whether a word has neither too few bytes nor too many, and no line feed.
fn good_word(word: &[u8]) -> bool
    ensures { result ≡ good_word word.now }
{
    !word.is_empty() && word.len() <= LONGEST_WORD && !word.contains(&b'\n')
}

/// Whether each of some words is good.
fn good_words(words: &[u8]) -> bool
    ensures { result ≡ every good_word (pieces 32 words.now) }
{
    words.split(|b| *b == b' ').all(good_word)
}

/// The two parts of a line, which has a tab and only good words before it.
pub fn split<'a>(line: &'a [u8]) -> Result<Parts<'a>, Refusal>
    ensures { MatchResult result
        (λ p. (good_line line.now ≡ true) × (p.words.now ≡ words_part line.now) × (p.formula.now ≡ formula_part line.now))
        (λ e. (good_line line.now ≡ false) × (e ≡ LineForm)) }
{
    let Some(tab) = line.iter().position(|b| *b == b'\t') else {
        return Err(Refusal::LineForm);
    };
    let (words, formula) = (&line[..tab], &line[tab + 1..]);
    if !good_words(words) {
        return Err(Refusal::LineForm);
    }
    Ok(Parts { words, formula })
}

/// A text without the line feed that ends its last line: cut at its line feeds, it gives the lines.
pub fn unended(text: &[u8]) -> &[u8]
    ensures cut { 0 < length text.now → pieces 10 result.now ≡ lines text.now }
    ensures empty { text.now ≡ [] → result.now ≡ [] }
{
    text.strip_suffix(b"\n").unwrap_or(text)
}

/// Whether a word is among the first of some words.
fn stands_before(words: &[u8], count: usize, word: &[u8]) -> bool
    ensures { result ≡ among word.now (take count (pieces 32 words.now)) }
{
    words
        .split(|b| *b == b' ')
        .take(count)
        .any(|other| other == word)
}

/// Whether one of some words stands twice.
pub(crate) fn repeats(words: &[u8]) -> bool
    ensures { result ≡ any_known [] (pieces 32 words.now) }
{
    words
        .split(|b| *b == b' ')
        .enumerate()
        .any(|(at, word)| stands_before(words, at, word))
}

/// How many words there are.
pub(crate) fn word_count(words: &[u8]) -> usize
    ensures { result ≡ length (pieces 32 words.now) }
{
    words.split(|b| *b == b' ').count()
}

/// How many bytes the words have without the spaces between them.
pub(crate) fn word_bytes(words: &[u8]) -> usize
    ensures { result ≡ length (word_cells (pieces 32 words.now)) }
{
    words.iter().filter(|b| **b != b' ').count()
}

use crate::case::{Case, Kind};
use crate::judge::Judge;
use lexicon::dictionary::Dictionary;
use lexicon::side::Side;
use std::alloc::AllocError;
use written::closed::Written;

/// A name of a connector, and the number by which a dictionary speaks of it.
#[derive(Drop)]
struct Numbered<'a> {
    name: &'a str,
    number: u16,
}

/// A disjunct of a word.
#[derive(Clone, Copy)]
struct Place {
    word: u16,
    disjunct: usize,
}

/// A dictionary, with the names whose numbers are known.
#[derive(Drop)]
struct Kept<'a, 'd, 't> {
    written: &'d Written<'t>,
    known: Vec<Numbered<'a>>,
}

impl<'a, 'd, 't> Kept<'a, 'd, 't> {
    /// Whether a name can have a number: equal names have equal numbers, and others differ.
    fn goes_with(&mut self, name: &'a str, number: u16) -> Result<bool, AllocError> {
        let like = |one: &&Numbered<'_>| one.name == name || one.number == number;
        if let Some(one) = self.known.iter().find(like) {
            return Ok(one.name == name && one.number == number);
        }
        self.known.push(Numbered { name, number })?;
        Ok(true)
    }

    /// Whether a side of a disjunct has the connectors with some names.
    fn side_has(&mut self, at: Place, side: Side, names: &'a str) -> Result<bool, AllocError> {
        let len = self.written.list_len(at.word, at.disjunct, side);
        if names == "-" {
            return Ok(len == 0);
        }
        for (i, name) in names.split(',').enumerate() {
            let number = self.written.connector(at.word, at.disjunct, side, i);
            if !self.goes_with(name, number)? {
                return Ok(false);
            }
        }
        Ok(len == names.split(',').count())
    }

    /// Whether a word has the disjuncts of an answer, which stand behind its first row.
    fn word_has(&mut self, word: u16, answer: &'a str) -> Result<bool, AllocError> {
        for (disjunct, row) in answer.lines().skip(1).enumerate() {
            let (_, names) = row.split_once(' ').unwrap_or(("", ""));
            let (left, right) = names.split_once(' ').unwrap_or(("", ""));
            let at = Place { word, disjunct };
            if !self.side_has(at, Side::Left, left)? || !self.side_has(at, Side::Right, right)? {
                return Ok(false);
            }
        }
        Ok(self.written.disjuncts(word) == answer.lines().skip(1).count())
    }
}

/// A case given to a draft, and how many words the draft had after it.
#[derive(Drop)]
pub(crate) struct Given<'c, 'a> {
    pub(crate) case: &'c Case<'a>,
    pub(crate) words: usize,
}

/// Compares what a dictionary has of each line with the answer to it.
pub(crate) fn compare_kept(
    judge: &mut Judge<'_>,
    written: &Written<'_>,
    given: &[Given<'_, '_>],
) -> anyhow::Result<()> {
    let mut kept = Kept {
        written,
        known: Vec::new(judge.heap()),
    };
    let mut first = 0;
    for Given { case, words } in given {
        if case.kind == Kind::Line {
            // The words that came with the line are those numbers.
            for word in first..*words {
                if !kept.word_has(u16::try_from(word)?, case.answer.as_str())? {
                    judge.tell(case, "a word with other disjuncts in the dictionary")?;
                }
            }
        }
        first = *words;
    }
    Ok(())
}

ghost use Rattle.std.specs.Prelude.{◌≡◌, ◌%◌};
ghost use Rattle.lexicon_report.specs.Counts.{all_disjuncts};
ghost use Rattle.written.specs.Meaning.{written_lexicon};

use crate::lines::line_count;
use lexicon::dictionary::Dictionary;
use lexicon::side::Side;
use std::io;
use std::io::Write;
use written::closed::Written;

/// The byte that a cell holds.
fn byte(cell: u16) -> u8
    ensures { result ≡ cell % 256 }
{
    (cell % 256) as u8
}

fn write_letters(out: &mut Vec<u8>, cells: &[u16]) -> io::Result<()> {
    for cell in cells {
        out.push(byte(*cell))?;
    }
    Ok(())
}

/// Prints a dictionary.
// A dictionary is asked by number, so the loops go over numbers and not over a list.
#[derive(Drop)]
struct Printer<'o, 'd, 't> {
    out: &'o mut Vec<u8>,
    dictionary: &'d Written<'t>,
}

impl<'o, 'd, 't> Printer<'o, 'd, 't> {
    /// The names of the connectors of a list, the nearest first.
    fn write_list(&mut self, word: u16, disjunct: usize, side: Side) -> io::Result<()> {
        let len = self.dictionary.list_len(word, disjunct, side);
        if len == 0 {
            self.out.push(b'-')?;
        }
        for place in 0..len {
            if place > 0 {
                self.out.push(b' ')?;
            }
            let number = self.dictionary.connector(word, disjunct, side, place);
            write_letters(self.out, self.dictionary.name(number))?;
        }
        Ok(())
    }

    fn write_disjunct(&mut self, word: u16, disjunct: usize) -> io::Result<()> {
        self.out.push(b'\t')?;
        self.write_list(word, disjunct, Side::Left)?;
        self.out.push(b'\t')?;
        self.write_list(word, disjunct, Side::Right)?;
        self.out.push(b'\n')?;
        Ok(())
    }

    fn write_word(&mut self, word: u16) -> io::Result<()> {
        let count = self.dictionary.disjuncts(word);
        write!(self.out, "{word}\t")?;
        write_letters(self.out, self.dictionary.word(word))?;
        writeln!(self.out, "\t{count}")?;
        for disjunct in 0..count {
            self.write_disjunct(word, disjunct)?;
        }
        Ok(())
    }
}

/// How many words there are, as a number of the kind that names a word.
fn word_count(dictionary: &Written) -> u16
    ensures { result ≡ (written_lexicon dictionary.now).words }
{
    dictionary.words() as u16
}

/// How many disjuncts the words have.
fn disjunct_count(dictionary: &Written) -> usize
    ensures { result ≡ all_disjuncts (written_lexicon dictionary.now) }
{
    (0..word_count(dictionary))
        .map(|word| dictionary.disjuncts(word))
        .sum()
}

/// The words of a dictionary, and a last line with what the dictionary and its text count.
pub(crate) fn write_dictionary(
    out: &mut Vec<u8>,
    dictionary: &Written,
    text: &[u8],
) -> io::Result<()> {
    let words = word_count(dictionary);
    let mut printer = Printer { out, dictionary };
    for word in 0..words {
        printer.write_word(word)?;
    }
    let lines = line_count(text);
    let disjuncts = disjunct_count(dictionary);
    let names = dictionary.name_count();
    let cells = dictionary.cells();
    writeln!(
        printer.out,
        "lines {lines}, words {words}, disjuncts {disjuncts}, names {names}, cells {cells}"
    )
}

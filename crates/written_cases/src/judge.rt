use crate::case::{Case, Kind};
use std::alloc::Global;
use std::fmt;

/// How many cases of each kind were run, and how many answers were wrong.
#[derive(Clone, Copy, Default)]
pub struct Tally {
    formulas: u32,
    lines: u32,
    texts: u32,
    finds: u32,
    matches: u32,
    wrong: u32,
}

/// Counts cases, and tells which answers are wrong.
#[derive(Drop)]
pub struct Judge<'r> {
    rt: &'r HostRuntime,
    tally: Tally,
}

impl<'r> Judge<'r> {
    pub(crate) fn new(rt: &'r HostRuntime) -> Judge<'r> {
        let tally = Tally::default();
        Judge { rt, tally }
    }

    pub(crate) fn heap(&self) -> Global {
        self.rt.alloc()
    }

    pub(crate) fn tally(&self) -> Tally {
        self.tally
    }

    /// Tells a wrong answer.
    pub(crate) fn tell(&mut self, case: &Case, came: &str) -> anyhow::Result<()> {
        self.tally.wrong = self.tally.wrong.saturating_add(1);
        let (line, expected) = (case.line, case.answer.as_str());
        println!(self.rt; "line {line}: expected {expected:?}, came {came:?}")?;
        Ok(())
    }

    /// Compares an answer with the expected one.
    pub(crate) fn compare(&mut self, case: &Case, came: &str) -> anyhow::Result<()> {
        if case.answer.as_str() != came {
            self.tell(case, came)?;
        }
        Ok(())
    }

    /// Counts a case, and compares its answer with the expected one.
    pub(crate) fn judge(&mut self, case: &Case, came: &str) -> anyhow::Result<()> {
        let tally = &mut self.tally;
        match case.kind {
            Kind::Formula => tally.formulas = tally.formulas.saturating_add(1),
            Kind::Line => tally.lines = tally.lines.saturating_add(1),
            Kind::Text => tally.texts = tally.texts.saturating_add(1),
            Kind::Find => tally.finds = tally.finds.saturating_add(1),
            Kind::Match => tally.matches = tally.matches.saturating_add(1),
            Kind::Draft | Kind::Close => {}
        }
        self.compare(case, came)
    }
}

impl fmt::Display for Tally {
    fn fmt<W: fmt::Write>(&self, f: &mut fmt::Formatter<W>) -> fmt::Result {
        let (formulas, lines, texts) = (self.formulas, self.lines, self.texts);
        let (finds, matches, wrong) = (self.finds, self.matches, self.wrong);
        write!(
            f,
            "formulas {formulas}, lines {lines}, texts {texts}, finds {finds}, matches {matches}: {wrong} wrong"
        )
    }
}

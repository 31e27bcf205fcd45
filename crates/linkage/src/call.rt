/// A call on the sentence under work, with its arguments.
#[derive(Clone, Copy, PartialEq, Eq, Debug)]
pub enum Call {
    Add { word: u16 },
    Drop,
    Change { position: usize, word: u16 },
    Strike { position: usize, disjunct: usize },
    Allow { position: usize, disjunct: usize },
    Trim,
    Weigh,
    Settle,
}

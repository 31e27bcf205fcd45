use crate::shown;
use lexicon::chain::Chain;
use lexicon::dictionary::Dictionary;
use lexicon::side::Side;
use std::alloc::{AllocError, Global};
use std::test::Fail;
use written::draft::Draft;

/// Whether a new draft over so many cells answers a line as it should.
fn answers(heap: Global, cells: usize, line: &[u8], expected: &str) -> Result<bool, AllocError> {
    let mut table = vec![in heap; 0u16; cells]?;
    let mut draft = Draft::new(&mut table);
    let answer = draft.line(line);
    Ok(shown::line(heap, answer)?.as_str() == expected)
}

#[test]
fn judges_the_form_first(rt: HostRuntime) -> Result<(), Fail> {
    let heap = rt.alloc();
    assert!(rt; answers(heap, 64, b"one D+", "11 at 0")?);
    assert!(rt; answers(heap, 64, b"\tD+", "11 at 0")?);
    assert!(rt; answers(heap, 64, b"one  two\tD+", "11 at 0")?);
    assert!(rt; answers(heap, 64, b"one\tD+ @", "12 at 3")?);
    assert!(rt; answers(heap, 64, b"one\t\tD+", "12 at 0")?);
    assert!(rt; answers(heap, 64, b"abcdefghijklmnopqrstuvwx\tD+", "ok")?);
    assert!(rt; answers(heap, 64, b"abcdefghijklmnopqrstuvwxy\tD+", "11 at 0")?);
    Ok(())
}

#[test]
fn takes_as_many_cells_as_listed(rt: HostRuntime) -> Result<(), Fail> {
    let heap = rt.alloc();
    assert!(rt; answers(heap, 21, b"a b\tA+", "ok")?);
    assert!(rt; answers(heap, 20, b"a b\tA+", "19 at 0")?);
    assert!(rt; answers(heap, 21, b"a a\tA+", "18 at 0")?);
    let mut table = vec![in heap; 0u16; 64]?;
    let mut draft = Draft::new(&mut table);
    draft.line(b"a b\tA+")?;
    assert!(rt; draft.spent() == 21 && draft.words() == 2);
    assert_eq!(rt;
        shown::line(heap, draft.line(b"c b\tA+"))?.as_str(),
        "18 at 0"
    );
    assert!(rt; draft.spent() == 21 && draft.words() == 2);
    draft.line(b"c\tA- or B+")?;
    assert!(rt; draft.spent() == 21 + 4 + 5 + 6 + 3 + 2);
    Ok(())
}

#[test]
fn answers_what_was_written(rt: HostRuntime) -> Result<(), Fail> {
    let heap = rt.alloc();
    let mut table = vec![in heap; 0u16; 256]?;
    let mut draft = Draft::new(&mut table);
    draft.text(b"one\tD+\npen lamp\t{A-} & D- & (O- or S+)\nfell\tSs-\n")?;
    let closed = draft.close();
    assert!(rt; closed.words() == 4);
    assert!(rt; closed.find(b"lamp") == 2 && closed.find(b"lam") == 65535);
    assert!(rt; closed.disjuncts(1) == 4 && closed.disjuncts(4) == 0);
    assert!(rt; closed.list_len(2, 0, Side::Left) == 3 && closed.list_len(2, 1, Side::Right) == 1);
    let right = closed.connector(0, 0, Side::Right, 0);
    let left = closed.connector(1, 0, Side::Left, 1);
    assert!(rt; closed.matches(right, left) && right == left);
    assert!(rt;
        closed.matches(
            closed.connector(1, 3, Side::Right, 0),
            closed.connector(3, 0, Side::Left, 0),
        )
    );
    assert!(rt; !closed.matches(right, closed.connector(3, 0, Side::Left, 0)));
    assert!(rt; !closed.matches(right, 1));
    Ok(())
}

#[test]
fn stops_a_text_at_the_first_refused_line(rt: HostRuntime) -> Result<(), Fail> {
    let heap = rt.alloc();
    let mut table = vec![in heap; 0u16; 256]?;
    let mut draft = Draft::new(&mut table);
    let Err(fault) = draft.text(b"one\tD+\ntwo\tA+ @\nsix\tB+\n") else {
        return Err(Fail::new("the second line is faulty"));
    };
    assert!(rt; fault.line == 2 && fault.place == 3 && fault.refusal.number() == 12);
    assert!(rt; draft.words() == 1 && draft.find(b"one") == 0 && draft.find(b"six") == 65535);
    let Err(empty) = draft.text(b"\nred\tA+\n") else {
        return Err(Fail::new("the first line is empty"));
    };
    assert!(rt; empty.line == 1 && empty.refusal.number() == 11 && draft.words() == 1);
    Ok(())
}

#[test]
fn bounds_words(rt: HostRuntime) -> Result<(), Fail> {
    let heap = rt.alloc();
    let mut table = vec![in heap; 0u16; 4096]?;
    let mut draft = Draft::new(&mut table);
    for i in 0u8..=255 {
        let line = [b'a' + i / 16, b'a' + i % 16, b'\t', b'A', b'+'];
        draft.line(&line)?;
    }
    assert!(rt; draft.words() == 256);
    assert_eq!(rt;
        shown::line(heap, draft.line(b"more\tA+"))?.as_str(),
        "19 at 0"
    );
    assert_eq!(rt;
        shown::line(heap, draft.line(b"aa\tA+"))?.as_str(),
        "18 at 0"
    );
    Ok(())
}

#[test]
fn bounds_chains(rt: HostRuntime) -> Result<(), Fail> {
    let Err(none) = Chain::new(&[]) else {
        return Err(Fail::new("a chain has a word"));
    };
    assert!(rt; none.number() == 20);
    assert!(rt; Chain::new(&[0; 64]).is_ok() && Chain::new(&[0; 65]).is_err());
    Ok(())
}

use folio::Folio;
use lexicon::chain::Chain;
use refusal::Refusal;
use std::test::Fail;

/// A chain of two words, each with four disjuncts.
const TWO: [u64; 2] = [0, 0];

#[test]
fn holds_40_words(rt: HostRuntime) -> Result<(), Fail> {
    let mut folio = Folio::open(Chain::new(&TWO)?);
    for position in 0..40 {
        assert_eq!(rt; folio.add(65535), Ok(position));
    }
    assert_eq!(rt; folio.add(0), Err(Refusal::FolioFull));
    assert_eq!(rt; folio.length(), 40);
    assert_eq!(rt; folio.drop(), Ok(65535));
    assert_eq!(rt; folio.add(0), Ok(39));
    Ok(())
}

#[test]
fn drops_the_last(rt: HostRuntime) -> Result<(), Fail> {
    let mut folio = Folio::open(Chain::new(&TWO)?);
    assert_eq!(rt; folio.drop(), Err(Refusal::NoWords));
    folio.add(0)?;
    folio.add(1)?;
    assert_eq!(rt; folio.drop(), Ok(1));
    assert_eq!(rt; folio.word(0), Ok(0));
    assert_eq!(rt; folio.word(1), Err(Refusal::NoPosition));
    Ok(())
}

#[test]
fn strikes_and_allows(rt: HostRuntime) -> Result<(), Fail> {
    let mut folio = Folio::open(Chain::new(&TWO)?);
    folio.add(1)?;
    assert_eq!(rt; folio.standing(0), Ok(4));
    assert_eq!(rt; folio.strike(0, 3), Ok(1));
    assert_eq!(rt; folio.strike(0, 3), Ok(0));
    assert_eq!(rt; folio.strike(0, 4), Err(Refusal::NoDisjunct));
    assert_eq!(rt; folio.strike(1, 4), Err(Refusal::NoPosition));
    assert_eq!(rt; folio.standing(0), Ok(3));
    assert_eq!(rt; folio.allow(0, 2), Ok(0));
    assert_eq!(rt; folio.allow(0, 3), Ok(1));
    assert_eq!(rt; folio.standing(0), Ok(4));
    Ok(())
}

#[test]
fn clears_strikes_with_the_same_word(rt: HostRuntime) -> Result<(), Fail> {
    let mut folio = Folio::open(Chain::new(&TWO)?);
    folio.add(1)?;
    folio.strike(0, 0)?;
    assert_eq!(rt; folio.change(0, 1), Ok(1));
    assert_eq!(rt; folio.standing(0), Ok(4));
    assert_eq!(rt; folio.change(0, 9), Ok(1));
    assert_eq!(rt; folio.standing(0), Ok(0));
    assert_eq!(rt; folio.change(1, 0), Err(Refusal::NoPosition));
    Ok(())
}

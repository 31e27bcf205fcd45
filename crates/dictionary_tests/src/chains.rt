use lexicon::chain::Chain;
use lexicon::dictionary::Dictionary;
use lexicon::side::Side;
use refusal::Refusal;
use std::test::Fail;

/// The words 1 and 63 may follow 0, and 0 may follow 2. There is no word 63, so its bit means nothing.
const THREE: [u64; 3] = [1 << 1 | 1 << 63, 0, 1];

/// How many words a chain of these sets has, or the number of the refusal.
fn size(sets: &[u64]) -> usize {
    match Chain::new(sets) {
        Ok(chain) => chain.words(),
        Err(refusal) => usize::from(refusal.number()),
    }
}

#[test]
fn has_1_to_64_words(rt: HostRuntime) {
    assert_eq!(rt; size(&[]), 20);
    assert_eq!(rt; size(&[0]), 1);
    assert_eq!(rt; size(&[0; 64]), 64);
    assert_eq!(rt; size(&[0; 65]), 20);
}

#[test]
fn orders_the_disjuncts(rt: HostRuntime) -> Result<(), Fail> {
    let chain = Chain::new(&THREE)?;
    assert_eq!(rt; chain.disjuncts(2), 4);
    let lists = [(0, 0), (0, 1), (1, 0), (1, 1)];
    for (disjunct, (left, right)) in lists.iter().enumerate() {
        assert_eq!(rt; chain.list_len(2, disjunct, Side::Left), *left);
        assert_eq!(rt; chain.list_len(2, disjunct, Side::Right), *right);
    }
    assert_eq!(rt; chain.connector(2, 2, Side::Left, 0), 2);
    assert_eq!(rt; chain.connector(2, 1, Side::Right, 0), 2);
    Ok(())
}

#[test]
fn answers_past_every_end(rt: HostRuntime) -> Result<(), Fail> {
    let chain = Chain::new(&THREE)?;
    assert_eq!(rt; chain.disjuncts(3), 0);
    assert_eq!(rt; chain.list_len(3, 3, Side::Left), 0);
    assert_eq!(rt; chain.list_len(2, 4, Side::Left), 0);
    assert_eq!(rt; chain.connector(2, 3, Side::Right, 1), 0);
    assert!(rt; !chain.matches(3, 0) && !chain.matches(0, 3));
    Ok(())
}

#[test]
fn matches_what_follows(rt: HostRuntime) -> Result<(), Fail> {
    let chain = Chain::new(&THREE)?;
    assert!(rt; chain.matches(0, 1) && !chain.matches(1, 0));
    assert!(rt; chain.matches(2, 0) && !chain.matches(0, 2));
    assert!(rt; !chain.matches(0, 63));
    Ok(())
}

use std::test::Fail;
use tally::Tally;
use tally::fewest_ways::FewestWays;

const LAST: u32 = u32::MAX - 1;

const NONE: FewestWays = FewestWays::NOTHING;

#[test]
fn fixed_values(rt: HostRuntime) {
    let [single, gap] = [FewestWays::of(0, 1), FewestWays::of(1, 1)];
    assert_eq!(rt;
        [FewestWays::nothing(), FewestWays::single()],
        [NONE, single]
    );
    assert_eq!(rt; [FewestWays::gap(), FewestWays::bare()], [gap, single]);
    assert_eq!(rt; [single.is_nothing(), NONE.is_nothing()], [false, true]);
}

#[test]
fn no_other_value_is_made(rt: HostRuntime) -> Result<(), Fail> {
    assert_eq!(rt;
        [FewestWays::of(LAST + 1, 5), FewestWays::of(2, 0)],
        [NONE, NONE]
    );
    let Some(least) = FewestWays::of(LAST, 5).least() else {
        return Err(Fail::new("nothing"));
    };
    assert_eq!(rt; (least.number, least.count), (LAST, 5));
    Ok(())
}

#[test]
fn counts_are_added_in_ties_alone(rt: HostRuntime) {
    let [x, fewer, more] = [
        FewestWays::of(2, 5),
        FewestWays::of(1, 4),
        FewestWays::of(3, 4),
    ];
    assert_eq!(rt;
        [x.either(fewer), x.either(more), x.either(NONE)],
        [fewer, x, x]
    );
    assert_eq!(rt; x.either(FewestWays::of(2, 4)), FewestWays::of(2, 9));
    assert_eq!(rt;
        x.either(FewestWays::of(2, u64::MAX)),
        FewestWays::of(2, u64::MAX)
    );
}

#[test]
fn both_add_and_multiply(rt: HostRuntime) {
    let x = FewestWays::of(2, 5);
    assert_eq!(rt; x.both(FewestWays::of(3, 4)), FewestWays::of(5, 20));
    assert_eq!(rt;
        x.both(FewestWays::of(3, u64::MAX / 4)),
        FewestWays::of(5, u64::MAX)
    );
    assert_eq!(rt;
        x.both(FewestWays::of(LAST - 2, 1)),
        FewestWays::of(LAST, 5)
    );
    assert_eq!(rt;
        [x.both(FewestWays::of(LAST - 1, 1)), x.both(NONE)],
        [NONE, NONE]
    );
}

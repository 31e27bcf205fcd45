use tally::fewest::Fewest;
use tally::{Choosing, Tally, chosen};

const LAST: u32 = u32::MAX - 1;

const NONE: Fewest = Fewest::NOTHING;

#[test]
fn fixed_values(rt: HostRuntime) {
    let [zero, one] = [Fewest::of(0), Fewest::of(1)];
    let fixed = [
        Fewest::nothing(),
        Fewest::single(),
        Fewest::gap(),
        Fewest::bare(),
    ];
    assert_eq!(rt; fixed, [NONE, zero, one, zero]);
    assert_eq!(rt;
        [zero.number(), one.number(), NONE.number()],
        [Some(0), Some(1), None]
    );
    assert_eq!(rt; [zero.is_nothing(), NONE.is_nothing()], [false, true]);
}

#[test]
fn the_smaller_stands(rt: HostRuntime) {
    let [two, three] = [Fewest::of(2), Fewest::of(3)];
    assert_eq!(rt;
        [two.either(three), three.either(two), three.either(NONE)],
        [two, two, three]
    );
    assert_eq!(rt; [two.stands(&three), three.stands(&two)], [true, false]);
    assert_eq!(rt; [two.stands(&NONE), NONE.stands(&two)], [true, false]);
    assert_eq!(rt; [chosen(three, two), chosen(NONE, three)], [two, three]);
}

#[test]
fn sums_end_below_the_limit(rt: HostRuntime) {
    let [one, last] = [Fewest::of(1), Fewest::of(LAST)];
    assert_eq!(rt;
        [last.number(), Fewest::of(LAST + 1).number()],
        [Some(LAST), None]
    );
    assert_eq!(rt;
        [Fewest::of(LAST - 1).both(one), last.both(one)],
        [last, NONE]
    );
    assert_eq!(rt; [last.both(last), one.both(NONE)], [NONE, NONE]);
}

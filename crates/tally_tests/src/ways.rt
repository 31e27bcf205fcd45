use tally::Tally;
use tally::ways::Ways;

const HALF: u64 = 1 << 32;

fn sum(a: u64, b: u64) -> u64 {
    Ways::from(a).either(Ways::from(b)).count()
}

fn product(a: u64, b: u64) -> u64 {
    Ways::from(a).both(Ways::from(b)).count()
}

#[test]
fn fixed_values(rt: HostRuntime) {
    let fixed = [Ways::nothing(), Ways::single(), Ways::gap(), Ways::bare()];
    let [nothing, single, gap, bare] = fixed;
    assert_eq!(rt;
        [nothing.count(), single.count(), gap.count(), bare.count()],
        [0, 1, 0, 0]
    );
    assert_eq!(rt; [gap.is_nothing(), single.is_nothing()], [true, false]);
}

#[test]
fn sums_and_products_stop_at_the_most(rt: HostRuntime) {
    assert_eq!(rt; [sum(2, 3), product(2, 3)], [5, 6]);
    assert_eq!(rt;
        [
            sum(u64::MAX - 2, 1),
            sum(u64::MAX - 2, 2),
            sum(u64::MAX - 2, 3),
        ],
        [u64::MAX - 1, u64::MAX, u64::MAX]
    );
    assert_eq!(rt;
        [
            product(HALF, HALF - 1),
            product(HALF, HALF),
            product(u64::MAX, 0),
        ],
        [u64::MAX - (HALF - 1), u64::MAX, 0]
    );
}

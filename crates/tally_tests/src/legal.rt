use tally::legal::Legal;
use tally::{Choosing, Tally, chosen};

const YES: Legal = Legal::Yes;

const NO: Legal = Legal::No;

#[test]
fn fixed_values(rt: HostRuntime) {
    let fixed = [
        Legal::nothing(),
        Legal::single(),
        Legal::gap(),
        Legal::bare(),
    ];
    assert_eq!(rt; fixed, [NO, YES, NO, NO]);
    assert_eq!(rt; [Legal::from(true), Legal::from(false)], [YES, NO]);
    assert_eq!(rt; [YES.is_yes(), NO.is_yes()], [true, false]);
    assert_eq!(rt; [YES.is_nothing(), NO.is_nothing()], [false, true]);
}

#[test]
fn joins_by_or_and_by_and(rt: HostRuntime) {
    assert_eq!(rt; [NO.either(YES), NO.either(NO)], [YES, NO]);
    assert_eq!(rt; [YES.both(YES), YES.both(NO)], [YES, NO]);
    assert_eq!(rt; [YES.stands(&NO), NO.stands(&YES)], [true, false]);
    assert_eq!(rt; [chosen(YES, NO), chosen(NO, YES)], [YES, YES]);
}

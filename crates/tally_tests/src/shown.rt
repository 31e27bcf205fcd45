use std::test::Fail;
use tally::fewest::Fewest;
use tally::fewest_ways::FewestWays;
use tally::legal::Legal;
use tally::ways::Ways;

#[test]
fn values_as_text(rt: HostRuntime) -> Result<(), Fail> {
    let [yes, no] = [Legal::Yes, Legal::No];
    let most = Ways::from(u64::MAX);
    let [two, none] = [Fewest::of(2), Fewest::NOTHING];
    assert_eq!(rt;
        format!(in rt.alloc(); "{yes} {no} {most} {two} {none}")?.as_str(),
        "yes no 18446744073709551615 2 nothing"
    );
    let [some, once] = [FewestWays::of(2, 5), FewestWays::of(0, 1)];
    let none = FewestWays::NOTHING;
    assert_eq!(rt;
        format!(in rt.alloc(); "{some}, {once}, {none}")?.as_str(),
        "2 in 5 ways, 0 in 1 way, nothing"
    );
    Ok(())
}

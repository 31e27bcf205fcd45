use written::matching::matching;

#[test]
fn continues_endings_with_stars(rt: HostRuntime) {
    assert!(rt; matching(b"S", b"Sp") && matching(b"S", b"Ss"));
    assert!(rt; !matching(b"Sp", b"Ss"));
}

#[test]
fn takes_a_star_for_any_letter(rt: HostRuntime) {
    assert!(rt; matching(b"D*u", b"Dmu") && matching(b"D*u", b"Dm"));
    assert!(rt; !matching(b"D*u", b"Dmc"));
}

#[test]
fn matches_many_with_one(rt: HostRuntime) {
    assert!(rt; matching(b"D", b"Dm") && matching(b"Dm", b"Dm"));
    assert!(rt; matching(b"D*u", b"Dm") && matching(b"Dmu", b"Dm"));
    assert!(rt; !matching(b"Ds", b"Dm"));
}

#[test]
fn compares_capitals_exactly(rt: HostRuntime) {
    assert!(rt; !matching(b"SI", b"S") && !matching(b"S", b"SI"));
    assert!(rt; !matching(b"*", b"S") && matching(b"SI", b"SIs"));
}

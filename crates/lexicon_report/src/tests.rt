use crate::report::report;
use std::test::Fail;

#[test]
fn shows_an_unknown_mark(rt: HostRuntime) -> Result<(), Fail> {
    let said = report(rt.alloc(), b"a\tA+ @B+")?;
    assert_eq!(rt;
        said.as_slice(),
        &b"refused: line 1, place 3: 12: no token begins with this mark: \"@\"\n"[..]
    );
    Ok(())
}

#[test]
fn shows_a_mark_out_of_place(rt: HostRuntime) -> Result<(), Fail> {
    let said = report(rt.alloc(), b"a\tA+\nb\tA+ or B+ & C+\n")?;
    assert_eq!(rt;
        said.as_slice(),
        &b"refused: line 2, place 9: 13: the formula allows no such token here: \"&\"\n"[..]
    );
    Ok(())
}

#[test]
fn tells_an_early_end(rt: HostRuntime) -> Result<(), Fail> {
    let said = report(rt.alloc(), b"a\tA+ or\n")?;
    assert_eq!(rt;
        said.as_slice(),
        &b"refused: line 1, place 5: 13: the formula allows no such token here: the end of the formula\n"[..]
    );
    Ok(())
}

#[test]
fn shows_the_seventeenth_bracket(rt: HostRuntime) -> Result<(), Fail> {
    let said = report(rt.alloc(), b"a\t(((((((((((((((({A+}))))))))))))))))\n")?;
    assert_eq!(rt;
        said.as_slice(),
        &b"refused: line 1, place 16: 14: brackets are open 16 deep already: \"{\"\n"[..]
    );
    Ok(())
}

#[test]
fn shows_a_name_without_sign(rt: HostRuntime) -> Result<(), Fail> {
    let said = report(rt.alloc(), b"a\tA+ & Bc\x01 or C-\n")?;
    assert_eq!(rt;
        said.as_slice(),
        &b"refused: line 1, place 5: 15: the connector's name has no sign or more than 8 bytes: \"Bc\\x01\"\n"[..]
    );
    Ok(())
}

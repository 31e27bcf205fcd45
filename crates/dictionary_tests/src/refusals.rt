use refusal::Refusal;
use refusal::fault::{Fault, LineFault};
use std::test::Fail;

#[test]
fn numbers_run_by_hand(rt: HostRuntime) {
    assert_eq!(rt; Refusal::LineForm.number(), 11);
    assert_eq!(rt; Refusal::ChainSize.number(), 20);
    assert_eq!(rt; Refusal::FolioFull.number(), 21);
    assert_eq!(rt; Refusal::NothingStands.number(), 25);
    assert_eq!(rt; Refusal::FewCells.number(), 31);
    assert_eq!(rt; Refusal::LongInput.number(), 33);
    assert_eq!(rt; Refusal::ChoiceCount.number(), 41);
    assert_eq!(rt; Refusal::NoMatch.number(), 48);
}

#[test]
fn prints_what_was_wrong(rt: HostRuntime) -> Result<(), Fail> {
    let refusal = Refusal::UnknownMark;
    let fault = Fault {
        line: 3,
        place: 5,
        refusal,
    };
    assert_eq!(rt;
        format!(in rt.alloc(); "{refusal}")?.as_str(),
        "no token begins with this mark"
    );
    assert_eq!(rt;
        format!(in rt.alloc(); "{fault}")?.as_str(),
        "line 3, place 5: refused with 12: no token begins with this mark"
    );
    let of_line = LineFault { place: 5, refusal };
    assert_eq!(rt;
        format!(in rt.alloc(); "{of_line}")?.as_str(),
        "place 5: refused with 12: no token begins with this mark"
    );
    Ok(())
}

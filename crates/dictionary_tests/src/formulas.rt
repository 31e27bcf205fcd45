use crate::shown;
use std::alloc::{AllocError, Global};
use std::test::Fail;

/// Whether a formula shows as it should.
fn shows(heap: Global, formula: &[u8], expected: &str) -> Result<bool, AllocError> {
    Ok(shown::formula(heap, formula)?.as_str() == expected)
}

#[test]
fn orders_ways(rt: HostRuntime) -> Result<(), Fail> {
    let heap = rt.alloc();
    assert!(rt; shows(heap, b"{A-} & D- & (O- or S+)", "A D O|;A D|S;D O|;D|S;")?);
    assert!(rt;
        shows(
            heap,
            b"(A- or ()) & D- & (B+ or ()) & (O- or S+)",
            "A D O|B;A D|B S;A D O|;A D|S;D O|B;D|B S;D O|;D|S;",
        )?
    );
    Ok(())
}

#[test]
fn keeps_equal_disjuncts_once(rt: HostRuntime) -> Result<(), Fail> {
    let heap = rt.alloc();
    assert!(rt;
        shows(
            heap,
            b"{A+} & {A+} & {A+} & {A+} & {A+} & {A+}",
            "|A A A A A A;|A A A A A;|A A A A;|A A A;|A A;|A;|;",
        )?
    );
    assert!(rt;
        shows(
            heap,
            b"{A+} & {A+} & {A+} & {A+} & {A+} & {A+} & {A+}",
            "16 at 0",
        )?
    );
    assert!(rt; shows(heap, b"{()} or B- or ()", "|;B|;")?);
    Ok(())
}

#[test]
fn refuses_the_first_faulty_token(rt: HostRuntime) -> Result<(), Fail> {
    let heap = rt.alloc();
    assert!(rt; shows(heap, b"A+ @B+", "12 at 3")?);
    assert!(rt; shows(heap, b"A+ or B+ & C+", "13 at 9")?);
    assert!(rt; shows(heap, b"A+ or", "13 at 5")?);
    assert!(rt; shows(heap, b"", "13 at 0")?);
    assert!(rt; shows(heap, b"A+ or ABCDEFGHI+", "15 at 6")?);
    assert!(rt; shows(heap, b"AaB+", "15 at 0")?);
    Ok(())
}

#[test]
fn bounds_names_and_brackets(rt: HostRuntime) -> Result<(), Fail> {
    let heap = rt.alloc();
    assert!(rt; shows(heap, b"ABCDEFGH+", "|ABCDEFGH;")?);
    assert!(rt; shows(heap, b"ABCDEFGHI+", "15 at 0")?);
    assert!(rt; shows(heap, b"((((((((((((((((A+))))))))))))))))", "|A;")?);
    assert!(rt; shows(heap, b"(((((((((((((((((A+)))))))))))))))))", "14 at 16")?);
    assert!(rt; shows(heap, b"((((((((((((((((()))))))))))))))))", "14 at 16")?);
    Ok(())
}

#[test]
fn bounds_lists_and_ways(rt: HostRuntime) -> Result<(), Fail> {
    let heap = rt.alloc();
    assert!(rt; shows(heap, b"A+&A+&A+&A+&A+&A+&A+&A+", "|A A A A A A A A;")?);
    assert!(rt; shows(heap, b"A+&A+&A+&A+&A+&A+&A+&A+&A+", "17 at 0")?);
    assert!(rt;
        shows(
            heap,
            b"{A+}&{A+}&{A+}&{A+}&{A+}&(A+ or B+)&(C+)&(D+)&(E+)",
            "17 at 0",
        )?
    );
    assert!(rt; shows(heap, b"({A+}&{A+}&{A+}&{A+}&{A+}&{A+}) or A+", "16 at 0")?);
    Ok(())
}

use formula::meaning::meaning;
use formula::way::Names;
use refusal::fault::LineFault;
use std::alloc::{AllocError, Global};

// `written_cases` prints lists with a mark of its own for none; a library between two programs for a few lines is no plainer.
fn list(out: &mut String, names: &Names) -> Result<(), AllocError> {
    for (i, name) in names.iter().enumerate() {
        if i > 0 {
            out.push(' ')?;
        }
        for b in name.iter() {
            out.push(char::from(*b))?;
        }
    }
    Ok(())
}

/// A formula's disjuncts, each as its left names, `|` and its right names, ended by `;`; or its refusal and the place.
pub(crate) fn formula(heap: Global, formula: &[u8]) -> Result<String, AllocError> {
    let kept = match meaning(formula) {
        Ok(kept) => kept,
        Err(fault) => return refusal(heap, fault),
    };
    let mut out = String::new(heap);
    for disjunct in kept.iter() {
        list(&mut out, &disjunct.left)?;
        out.push('|')?;
        list(&mut out, &disjunct.right)?;
        out.push(';')?;
    }
    Ok(out)
}

fn refusal(heap: Global, fault: LineFault) -> Result<String, AllocError> {
    let (number, place) = (fault.refusal.number(), fault.place);
    format!(in heap; "{number} at {place}")
}

/// `ok`, or the refusal of a line and the place.
pub(crate) fn line(heap: Global, answer: Result<(), LineFault>) -> Result<String, AllocError> {
    match answer {
        Ok(()) => String::from_str(heap, "ok"),
        Err(fault) => refusal(heap, fault),
    }
}

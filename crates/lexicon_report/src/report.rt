use crate::refuse::write_refusal;
use crate::render::write_dictionary;
use std::alloc::Global;
use std::io;
use written::draft::Draft;

/// How many cells a dictionary may take.
const CELLS: usize = 65535;

/// What a text's dictionary holds, or why the text is refused.
pub(crate) fn report(heap: Global, text: &[u8]) -> io::Result<Vec<u8>> {
    let mut table = vec![in heap; 0u16; CELLS]?;
    let mut out = Vec::new(heap);
    let mut draft = Draft::new(table.as_mut_slice());
    match draft.text(text) {
        Ok(()) => write_dictionary(&mut out, &draft.close(), text)?,
        Err(fault) => write_refusal(&mut out, fault, text)?,
    }
    Ok(out)
}

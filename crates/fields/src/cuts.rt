// Cuts a text at a mark: a script at its line feeds, a line at its commas.
ghost use Rattle.std.specs.Prelude.{◌≡◌, ◌+◌, ◌^◌, ◌<◌, map, IfOk};
ghost use Rattle.fields.specs.Places.{word_of, row_of, end_of, words, lines_of, rows_of};

use super::parts::Field;
use std::alloc::{AllocError, Global};

// The parts of a text between its marks.
fn pieces<'a>(heap: Global, text: Field<'a>, mark: u8) -> Result<Vec<Field<'a>>, AllocError>
    requires { end_of (word_of text) + 1 < 2 ^ 64 }
    ensures { IfOk result (λ v. map word_of v.items ≡ words mark (word_of text.entry)) }
{
    let mut all = Vec::new(heap);
    let mut at = text.at;
    for bytes in text.bytes.split(|byte| *byte == mark) {
        all.push(Field { bytes, at })?;
        at += bytes.len() + 1;
    }
    Ok(all)
}

// The lines of a script. A line feed at its end begins no further line.
pub fn lines(heap: Global, script: &[u8]) -> Result<Vec<Field<'_>>, AllocError>
    ensures { IfOk result (λ v. map word_of v.items ≡ lines_of script.now) }
{
    let bytes = match script {
        [body @ .., b'\n'] => body,
        _ => script,
    };
    pieces(heap, Field { bytes, at: 0 }, b'\n')
}

// The fields of each line of a script.
pub fn rows(heap: Global, script: &[u8]) -> Result<Vec<Vec<Field<'_>>>, AllocError>
    ensures { IfOk result (λ v. map row_of v.items ≡ rows_of script.now) }
{
    lines(heap, script)?
        .iter()
        .map(|line| pieces(heap, *line, b','))
        .try_collect(heap)
}

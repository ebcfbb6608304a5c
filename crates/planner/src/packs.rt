// Reads the charges of packs from text, one number to a line.
ghost use Rattle.std.specs.Prelude.{◌≡◌, length, Ok, MatchResult};
ghost use Rattle.planner.specs.Faults.{Refuses};
ghost use Rattle.planner.specs.Packs.{packs_of, before_feed, after_feed};

use super::faults::Fault;
use super::numbers::number;
use std::alloc::Global;
use terms::MOST_OBJECTS;

// The first line of a text, and the text after its line feed. `fields` tells the place of each part besides.
pub fn cut_line(text: &[u8]) -> (&[u8], &[u8])
    ensures line { result.0.now ≡ before_feed text.now }
    ensures rest { result.1.now ≡ after_feed text.now }
{
    match text.iter().position(|byte| *byte == b'\n') {
        Some(end) => (&text[..end], &text[end + 1..]),
        None => (text, &[]),
    }
}

// The packs of a text, in order; or else the first fault.
pub fn read_packs(heap: Global, text: &[u8]) -> Result<Vec<u64>, Fault>
    ensures { MatchResult result (λ packs. packs_of text.now ≡ Ok packs.items) (λ fault. Refuses fault (packs_of text.now)) }
{
    let mut packs = Vec::new(heap);
    let mut rest = text;
    // `split` would find a line in an empty text, and one after a last line feed; `split_inclusive` keeps each line feed, and would leave `cut_line`, which is public, without a caller.
    // A line's number is that of the packs before it, and one.
    while !rest.is_empty() {
        let line = packs.len() + 1;
        if line > MOST_OBJECTS {
            return Err(Fault::TooMany { line });
        }
        let (first, more) = cut_line(rest);
        let pack = number(first).ok_or(Fault::NoNumber { line })?;
        packs.push(pack)?;
        rest = more;
    }
    Ok(packs)
}

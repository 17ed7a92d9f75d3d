//! Question lines.
ghost use Rattle.std.specs.Prelude.{◌≡◌, IfOk};
ghost use Rattle.design.specs.Lines.{unread, EntriesSaid, LookupAsked, PairSaid, TranslationAsked};

use crate::ask::{Ask, Entries, Lookup};
use crate::fault::{Expected, Fault, What};
use crate::number::first_four;
use crate::words::Words;
use std::alloc::Global;

/// Reads the entries of an index up to the end of the line.
fn read_entries<'a>(heap: Global, words: &mut Words<'a>) -> Result<Entries, Fault<'a>>
    ensures { IfOk result (EntriesSaid (unread words.old)) }
{
    let numbers = words.numbers::<i64>(heap, Expected::IndexEntry)?;
    if numbers.colon {
        return Err(words.stray_colon());
    }
    let count = numbers.values.len();
    if count > 4 {
        return Err(words.fault(What::Entries(count), Expected::FewEntries));
    }
    let index = first_four(numbers.values.as_slice(), 0);
    Ok(Entries { count, index })
}

/// Reads a lookup after its first word: a layout and an index.
pub fn read_lookup<'a>(heap: Global, words: &mut Words<'a>, how: Lookup) -> Result<Ask, Fault<'a>>
    ensures { IfOk result (LookupAsked how (unread words.old)) }
{
    let layout = words.number(Expected::Layout)?;
    let entries = read_entries(heap, words)?;
    Ok(Ask::Lookup {
        how,
        layout,
        entries,
    })
}

/// Reads the two numbers of a line after its first word.
pub fn read_pair<'a>(
    words: &mut Words<'a>,
    first: Expected,
    second: Expected,
) -> Result<(usize, usize), Fault<'a>>
    ensures { IfOk result (λ q. PairSaid (unread words.old) q.0 q.1) }
{
    let a = words.number(first)?;
    let b = words.number(second)?;
    words.end()?;
    Ok((a, b))
}

/// Reads a translation after its first word: source, via and target, and the start.
pub fn read_translation<'a>(heap: Global, words: &mut Words<'a>) -> Result<Ask, Fault<'a>>
    ensures { IfOk result (TranslationAsked (unread words.old)) }
{
    let source = words.number(Expected::Layout)?;
    let via = words.number(Expected::Layout)?;
    let target = words.number(Expected::Layout)?;
    let start = read_entries(heap, words)?;
    Ok(Ask::Trans {
        source,
        via,
        target,
        start,
    })
}

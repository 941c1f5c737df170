// The lines that set a design or a parameter set, one number at a time.
ghost use Rattle.std.specs.Prelude.{OnSome};
ghost use Rattle.replay.specs.Setting.{EntrySet, NumberSet, DoubleSet};

use crate::numbers::{decimal, hex, small};
use crate::parts::split_at_first;
use doubles::double;

// Sets the entry that a word names: `Some` where there is one. A length is compared, since a proof does not learn what is written through
// `get_mut(..)?`.
fn set<T: Copy>(word: &[u8], value: T, slice: &mut [T]) -> Option<()>
    ensures { OnSome result (EntrySet word.now value slice.old slice.new) }
{
    let index = decimal(word)?;
    let at = index as usize;
    if slice.len() <= at {
        return None;
    }
    slice[at] = value;
    Some(())
}

// `INDEX BYTE`: `Some` where the line sets an entry.
pub(crate) fn set_byte(words: &[u8], slice: &mut [u8]) -> Option<()>
    ensures { OnSome result (NumberSet words.now slice.old slice.new) }
{
    let (first, second) = split_at_first(words, b' ');
    let value = small(second)?;
    set(first, value, slice)
}

// `INDEX NUMBER`.
pub(crate) fn set_number(words: &[u8], slice: &mut [usize]) -> Option<()>
    ensures { OnSome result (NumberSet words.now slice.old slice.new) }
{
    let (first, second) = split_at_first(words, b' ');
    let value = decimal(second)?;
    set(first, value as usize, slice)
}

// `INDEX DOUBLE`.
pub(crate) fn set_double(words: &[u8], slice: &mut [f64]) -> Option<()>
    ensures { OnSome result (DoubleSet words.now slice.old slice.new) }
{
    let (first, second) = split_at_first(words, b' ');
    let bits = hex(second)?;
    set(first, double(bits), slice)
}

// What is wrong with a file whose every line can be read.
ghost use Rattle.std.specs.Prelude.{◌≡◌};
ghost use Rattle.sheet.specs.Faults.{limit_of, same_word, has_name, is_name_twice, fault_of, sheet_answer};

use crate::rows::{Group, count_of, first_of};
use reply::limits::POSITIONS;
use sdc_common::MOST_STRANDS;
use sdc1d_params::MOST_ENTRIES;
use statements::statement::Row;
use statements::words::{Word, bytes};

// What is wrong with a file's rows.
#[derive(Clone, Copy, PartialEq, Eq)]
pub enum SheetFault {
    // The line, and the name, of a strand that has the name of one before it.
    NameTwice(usize, Word),
    // The line with what may be given once and was given before, and its group.
    GivenTwice(usize, Group),
    // The line with the first strand, position or entry above the limit, and its group.
    TooMany(usize, Group),
    // The ambient is given nowhere.
    NoAmbient,
}

// How many strands, positions and entries a file has.
#[derive(Clone, Copy, PartialEq, Eq)]
pub struct Counts {
    pub strands: usize,
    pub positions: usize,
    pub entries: usize,
}

// How many rows of a group there may be: document 01's limits, or one.
fn limit_of(group: Group) -> usize
    ensures { result ≡ limit_of group }
{
    match group {
        Group::Strand => MOST_STRANDS,
        Group::Position => POSITIONS,
        Group::Entry => MOST_ENTRIES,
        _ => 1,
    }
}

// Whether two words of the text have the same bytes.
pub(crate) fn same_word(text: &[u8], a: Word, b: Word) -> bool
    ensures { result ≡ same_word text.now a b }
{
    bytes(text, a) == bytes(text, b)
}

// Whether a row is a strand with a name.
fn has_name(text: &[u8], name: Word, row: &Row) -> bool
    ensures { result ≡ has_name text.now name row.now }
{
    Group::from(row.kind) == Group::Strand && same_word(text, name, row.words[0])
}

// Whether a row is a strand with the name of one before it.
#[tactic(auto, unfolding(crate::specs::Faults::is_name_twice))]
fn is_name_twice(text: &[u8], before: &[Row], row: &Row) -> bool
    ensures { result ≡ is_name_twice text.now before.now row.now }
{
    Group::from(row.kind) == Group::Strand
        && before
            .iter()
            .any(|other| has_name(text, row.words[0], other))
}

// What is wrong with a row that comes after others.
#[tactic(auto, unfolding(crate::specs::Faults::fault_of))]
fn check_row(text: &[u8], before: &[Row], row: &Row) -> Result<(), SheetFault>
    ensures { result ≡ fault_of text.now before.now row.now }
{
    if is_name_twice(text, before, row) {
        return Err(SheetFault::NameTwice(row.line, row.words[0]));
    }
    let group = Group::from(row.kind);
    let limit = limit_of(group);
    if count_of(before, group) < limit {
        Ok(())
    } else if limit == 1 {
        Err(SheetFault::GivenTwice(row.line, group))
    } else {
        Err(SheetFault::TooMany(row.line, group))
    }
}

// What is wrong with the rows of a text, or how much there is to gather.
pub(crate) fn check(text: &[u8], rows: &[Row]) -> Result<Counts, SheetFault>
    ensures { result ≡ sheet_answer text.now rows.now }
{
    // By number: a row is held against those before it.
    for (i, row) in rows.iter().enumerate() {
        check_row(text, &rows[..i], row)?;
    }
    if first_of(rows, Group::Ambient).is_none() {
        return Err(SheetFault::NoAmbient);
    }
    Ok(Counts {
        strands: count_of(rows, Group::Strand),
        positions: count_of(rows, Group::Position),
        entries: count_of(rows, Group::Entry),
    })
}

// The place that is shown: a line, a word of it as far as there is one, and the reason.
ghost use Rattle.std.specs.Prelude.{◌≡◌, slice_get};
ghost use Rattle.statements.specs.Words.{lines_of, words_in};
ghost use Rattle.settle.specs.Places.{at_line, word_on, on_line, on_row, in_row, too_many, why_of, ambient_word, amount_word, build_found, kelvin_found, amount_found, design_found};

use answers::reasons::Why;
use answers::{Found, Spot};
use reply::{Refusal, Refused};
use sheet::place::Cause;
use sheet::rows::Group;
use sheet::said::Sheet;
use statements::grammar::Kind;
use statements::statement::Row;
use statements::words::{Lines, NumberedLine, Word, Words};

// Word n of a line, from 0.
fn word_in(line: &NumberedLine<'_>, n: usize) -> Option<Word>
    ensures { result ≡ slice_get (words_in line.now.text.now line.now.start) n }
{
    Words::of(line.text, line.start).nth(n)
}

// Word n of the line with a number. The rows have the words that are names; a number or a keyword is found here.
fn word_on(text: &[u8], number: usize, n: usize) -> Option<Word>
    ensures { result ≡ word_on text.now number n 1 (lines_of text.now) }
{
    for line in Lines::of(text) {
        if line.number == number {
            return word_in(&line, n);
        }
    }
    None
}

// In a line.
pub(crate) fn at_line(line: usize, why: Why) -> Found
    ensures { result ≡ at_line line why }
{
    Found {
        spot: Spot {
            line: Some(line),
            word: None,
        },
        why,
    }
}

// At word n of the line with a number.
pub(crate) fn on_line(text: &[u8], number: usize, n: usize, why: Why) -> Found
    ensures { result ≡ on_line text.now number n why }
{
    Found {
        spot: Spot {
            line: Some(number),
            word: word_on(text, number, n),
        },
        why,
    }
}

// At word n of the line of a row, where there is one.
fn on_row(text: &[u8], row: Option<Row>, n: usize, why: Why) -> Found
    ensures { result ≡ on_row text.now row n why }
{
    match row {
        Some(row) => on_line(text, row.line, n, why),
        None => Found::nowhere(why),
    }
}

// At the first word that a row has, where there is one.
fn in_row(row: Option<Row>, why: Why) -> Found
    ensures { result ≡ in_row row why }
{
    match row {
        Some(row) => Found {
            spot: Spot::at(Some(row.line), row.words[0]),
            why,
        },
        None => Found::nowhere(why),
    }
}

// What is too many, by the group of its rows.
pub(crate) fn too_many(group: Group) -> Why
    ensures { result ≡ too_many group }
{
    match group {
        Group::Strand => Why::TooManyStrands,
        Group::Position => Why::TooManyPositions,
        Group::Entry => Why::TooManyEnergies,
        _ => Why::Refused,
    }
}

// The reason of a build's fault.
fn why_of(cause: Cause) -> Why
    ensures { result ≡ why_of cause }
{
    match cause {
        Cause::LongName => Why::LongName,
        Cause::LongSequence => Why::LongSequence,
        Cause::NoSuchStrand => Why::NoSuchStrand,
        Cause::NotABase => Why::NotABase,
        Cause::ShortSequence => Why::ShortSequence,
        Cause::UnknownName => Why::UnknownName,
        Cause::TooManyGlues => Why::TooManyGlues,
        Cause::PairTwice => Why::PairTwice,
        Cause::EnergyRange => Why::EnergyRange,
        Cause::TwoStars => Why::TwoStars,
    }
}

// Of a build that is refused so.
#[tactic(auto, unfolding(crate::specs::Places::build_found))]
pub(crate) fn build_found(sheet: &Sheet, refused: Refused) -> Found
    ensures { result ≡ build_found sheet.now.text.now sheet.now.rows.now refused }
{
    match sheet.place_of(refused) {
        Some(fault) => Found {
            spot: Spot::at(Some(fault.line), fault.word),
            why: why_of(fault.cause),
        },
        None => Found::nowhere(Why::Refused),
    }
}

// Of the temperature.
#[tactic(auto, unfolding(crate::specs::Places::kelvin_found))]
pub(crate) fn kelvin_found(sheet: &Sheet) -> Found
    ensures { result ≡ kelvin_found sheet.now.text.now sheet.now.rows.now }
{
    let row = sheet.first_of(Group::Ambient);
    on_row(sheet.text, row, 1, Why::KelvinRange)
}

// The word of a strand's line that holds its amount.
fn amount_word(kind: Kind) -> usize
    ensures { result ≡ amount_word kind }
{
    match kind {
        Kind::Strand => 5,
        _ => 2,
    }
}

// Of a strand's concentration.
#[tactic(auto, unfolding(crate::specs::Places::amount_found))]
pub(crate) fn amount_found(sheet: &Sheet, strand: usize) -> Found
    ensures { result ≡ amount_found sheet.now.text.now sheet.now.rows.now strand }
{
    let why = Why::ConcentrationRange;
    match sheet.row_of_strand(strand) {
        Some(row) => on_line(sheet.text, row.line, amount_word(row.kind), why),
        None => Found::nowhere(why),
    }
}

// The word of the ambient's line that holds one of its numbers: RT, then the two excesses. A refusal's place is a number, as C is told it.
fn ambient_word(number: usize) -> usize
    ensures { result ≡ ambient_word number }
{
    match number {
        0 => 1,
        1 => 2,
        _ => 3,
    }
}

// Of a design that was built: a number of its ambient, the potential of a strand, or that it is a ring.
#[tactic(auto, unfolding(crate::specs::Places::design_found))]
pub(crate) fn design_found(sheet: &Sheet, refused: Refused) -> Found
    ensures { result ≡ design_found sheet.now.text.now sheet.now.rows.now refused }
{
    match (refused.refusal, refused.place) {
        (Refusal::AmbientOut, Some(number)) => on_row(
            sheet.text,
            sheet.first_of(Group::Ambient),
            ambient_word(number),
            Why::AmbientRange,
        ),
        (Refusal::PotentialOut, Some(strand)) => {
            in_row(sheet.row_of_strand(strand), Why::PotentialRange)
        }
        (Refusal::NotARing, _) => {
            on_row(sheet.text, sheet.first_of(Group::Ring), 0, Why::RingSize)
        }
        _ => Found::nowhere(Why::Refused),
    }
}

// Where the fault of a build that is refused lies in the file.
ghost use Rattle.std.specs.Prelude.{◌≡◌};
ghost use Rattle.statements.specs.declared.grammar.Kind.TheVariants as kind;
ghost use Rattle.sheet.specs.Rows.{first_of};
ghost use Rattle.sheet.specs.Place.{own_names, all_names, sequence_by, is_long, long_name, starred_name, long_sequence, lost_by, at_word, size_fault, row_fault, first_fault, at_name, at_sequence, member, place_of, row_of_strand};

use crate::rows::{Chosen, Group, count_of, first_of};
use crate::said::Sheet;
use reply::{Refusal, Refused};
use sdc_common::MOST_STRANDS;
use sdc_common::names::Part;
use sdc_common::retired::retires;
use sdc1d_params::MOST_ENTRIES;
use statements::grammar::Kind;
use statements::statement::Row;
use statements::words::{Word, bytes};
use utils::LONGEST;

// What is wrong with a word of a row.
#[derive(Clone, Copy, PartialEq, Eq)]
pub enum Cause {
    // size
    LongName,
    LongSequence,
    // The quencher or the reporter copies a strand that is not there.
    NoSuchStrand,
    // base, short, unknown, glues, twice, range, stars
    NotABase,
    ShortSequence,
    UnknownName,
    TooManyGlues,
    PairTwice,
    EnergyRange,
    TwoStars,
}

// The line of a row, a word in it, and what is wrong there.
#[derive(Clone, Copy, PartialEq, Eq)]
pub struct BuildFault {
    pub line: usize,
    pub word: Word,
    pub cause: Cause,
}

// A fault at a word of a row.
fn at_word(row: &Row, cause: Cause, word: Word) -> BuildFault
    ensures { result ≡ at_word row.now cause word }
{
    BuildFault {
        line: row.line,
        word,
        cause,
    }
}

// The names of glues in the row of a strand or an entry.
fn own_names(row: &Row) -> &[Word]
    ensures { result.now ≡ own_names row.now.kind row.now.words }
{
    match row.kind {
        Kind::Strand => &row.words[1..4],
        Kind::EnergyGiven | Kind::EnergySequence => &row.words[..1],
        Kind::PairGiven | Kind::PairSequence => &row.words[..2],
        _ => &[],
    }
}

// The names of glues in any row.
fn all_names(row: &Row) -> &[Word]
    ensures { result.now ≡ all_names row.now.kind row.now.words }
{
    match row.kind {
        Kind::Position | Kind::Blocked => &row.words[..1],
        _ => own_names(row),
    }
}

// The sequence of an entry that has one.
fn sequence_of(row: &Row) -> Option<Word>
    ensures { result ≡ sequence_by row.now.kind row.now }
{
    match row.kind {
        Kind::EnergySequence => Some(row.words[1]),
        Kind::PairSequence => Some(row.words[2]),
        _ => None,
    }
}

// Whether a name is too long by itself.
fn is_long(text: &[u8], name: Word) -> bool
    ensures { result ≡ is_long text.now name }
{
    let part = Part {
        start: name.start,
        size: name.size,
    };
    part.is_unfit_name(text)
}

// The first name of a row that is too long.
#[tactic(auto, unfolding(crate::specs::Place::long_name))]
fn long_name(text: &[u8], row: &Row) -> Option<Word>
    ensures { result ≡ long_name text.now row.now }
{
    all_names(row)
        .iter()
        .copied()
        .find(|name| is_long(text, *name))
}

// The first name of a strand or an entry that ends in two or more stars.
#[tactic(auto, unfolding(crate::specs::Place::starred_name))]
fn starred_name(text: &[u8], row: &Row) -> Option<Word>
    ensures { result ≡ starred_name text.now row.now }
{
    own_names(row)
        .iter()
        .copied()
        .find(|name| retires(bytes(text, *name)))
}

// A row's sequence, if it is too long.
#[tactic(auto, unfolding(crate::specs::Place::long_sequence))]
fn long_sequence(text: &[u8], row: &Row) -> Option<Word>
    ensures { result ≡ long_sequence text.now row.now }
{
    let sequence = sequence_of(row)?;
    if LONGEST < bytes(text, sequence).len() {
        Some(sequence)
    } else {
        None
    }
}

// A row at fault at its first word.
#[tactic(auto, unfolding(crate::specs::Place::at_name))]
fn at_name(cause: Cause, row: Option<Row>) -> Option<BuildFault>
    ensures { result ≡ at_name cause row }
{
    let row = row?;
    Some(at_word(&row, cause, row.words[0]))
}

// A row at fault at its sequence.
#[tactic(auto, unfolding(crate::specs::Place::at_sequence))]
fn at_sequence(cause: Cause, row: Option<Row>) -> Option<BuildFault>
    ensures { result ≡ at_sequence cause row }
{
    let row = row?;
    let sequence = sequence_of(&row)?;
    Some(at_word(&row, cause, sequence))
}

impl Sheet<'_> {
    // The name of a strand that is not there, in the row of the quencher or the reporter.
    fn lost_name(&self, row: &Row) -> Option<Word>
        ensures { result ≡ lost_by row.now.kind self.now.text.now self.now.rows.now row.now }
    {
        let copies = self.copies();
        let strand = match row.kind {
            Kind::Quencher => copies.quencher?,
            Kind::Reporter => copies.reporter?,
            _ => return None,
        };
        if strand == 0 {
            Some(row.words[0])
        } else {
            None
        }
    }

    // What is too large in a row, or not there.
    #[tactic(auto, unfolding(crate::specs::Place::size_fault))]
    fn size_fault(&self, row: &Row) -> Option<BuildFault>
        ensures { result ≡ size_fault self.now.text.now self.now.rows.now row.now }
    {
        if let Some(name) = long_name(self.text, row) {
            return Some(at_word(row, Cause::LongName, name));
        }
        if let Some(sequence) = long_sequence(self.text, row) {
            return Some(at_word(row, Cause::LongSequence, sequence));
        }
        let name = self.lost_name(row)?;
        Some(at_word(row, Cause::NoSuchStrand, name))
    }

    // The fault of a row by itself, of a refusal that says no place.
    #[tactic(auto, unfolding(crate::specs::Place::row_fault))]
    fn row_fault(&self, refusal: Refusal, row: &Row) -> Option<BuildFault>
        ensures { result ≡ row_fault self.now.text.now self.now.rows.now refusal row.now }
    {
        match refusal {
            Refusal::WrongSize => self.size_fault(row),
            Refusal::TwoStars => {
                let name = starred_name(self.text, row)?;
                Some(at_word(row, Cause::TwoStars, name))
            }
            _ => None,
        }
    }

    // The first row at fault by itself.
    fn first_fault(&self, refusal: Refusal) -> Option<BuildFault>
        ensures { result ≡ first_fault (row_fault self.now.text.now self.now.rows.now refusal) self.now.rows.now }
    {
        for row in self.rows {
            if let Some(fault) = self.row_fault(refusal, row) {
                return Some(fault);
            }
        }
        None
    }

    // The row of a group by its number, from 0.
    fn member(&self, group: Group, number: Option<usize>) -> Option<Row>
        ensures { result ≡ member self.now.rows.now group number }
    {
        let number = number?;
        let count = count_of(self.rows, group);
        let mut places = [0usize; MOST_ENTRIES];
        let members = Chosen::of(self.rows, group, &mut places[..count]);
        members.row(number).copied()
    }

    // Where a build that is refused so is at fault.
    #[tactic(auto, unfolding(crate::specs::Place::place_of))]
    pub fn place_of(&self, refused: Refused) -> Option<BuildFault>
        ensures { result ≡ place_of self.now.text.now self.now.rows.now refused }
    {
        let place = refused.place;
        match refused.refusal {
            Refusal::NotABase => at_sequence(Cause::NotABase, self.member(Group::Entry, place)),
            Refusal::TooShort => {
                at_sequence(Cause::ShortSequence, self.member(Group::Entry, place))
            }
            Refusal::UnknownName => {
                at_name(Cause::UnknownName, self.member(Group::Position, place))
            }
            Refusal::TooManyGlues => {
                at_name(Cause::TooManyGlues, self.member(Group::Strand, place))
            }
            Refusal::DuplicatePair => at_name(Cause::PairTwice, self.member(Group::Entry, place)),
            Refusal::OutOfRange => at_name(Cause::EnergyRange, self.member(Group::Entry, place)),
            _ => self.first_fault(refused.refusal),
        }
    }

    // The first row of a group.
    pub fn first_of(&self, group: Group) -> Option<Row>
        ensures { result ≡ first_of group self.now.rows.now }
    {
        first_of(self.rows, group).copied()
    }

    // The row of a strand by its number: 0 is none, then the user strands, the quencher, the reporter.
    #[tactic(auto, unfolding(crate::specs::Place::row_of_strand))]
    pub fn row_of_strand(&self, strand: usize) -> Option<Row>
        ensures { result ≡ row_of_strand self.now.rows.now strand }
    {
        let users = self.counts.strands;
        if strand == 0 {
            None
        } else if strand - 1 < users {
            let mut places = [0usize; MOST_STRANDS];
            let strands = Chosen::of(self.rows, Group::Strand, &mut places[..users]);
            strands.row(strand - 1).copied()
        } else if strand - 1 == users {
            self.first_of(Group::Quencher)
        } else {
            self.first_of(Group::Reporter)
        }
    }
}

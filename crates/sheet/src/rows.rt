// Rows by what they stand for, and what stands in a row.
ghost use Rattle.std.specs.Prelude.{◌≡◌, ◌<◌, length};
ghost use Rattle.std.specs.Option.{option_copied};
ghost use Rattle.statements.specs.Layout.{word_in};
ghost use Rattle.sheet.specs.inner.Laid.{laid};
ghost use Rattle.sheet.specs.Rows.{group_of, count_of, first_of, rows_of, row_among, word_among, number_among, kind_among};

use statements::grammar::Kind;
use statements::statement::Row;
use statements::words::Word;

// What a row stands for. The three ways to give the ambient are of one group, and so are open and blocked positions, and the four kinds of entries.
#[derive(Clone, Copy, PartialEq, Eq)]
pub enum Group {
    Ambient,
    Strand,
    Quencher,
    Reporter,
    Position,
    Entry,
    Penalty,
    Ring,
}

impl From<Kind> for Group {
    ghost from_gives = { λ kind group. group ≡ group_of kind };

    fn from(kind: Kind) -> Self {
        match kind {
            Kind::Kelvin | Kind::Celsius | Kind::Ambient => Group::Ambient,
            Kind::Strand => Group::Strand,
            Kind::Quencher => Group::Quencher,
            Kind::Reporter => Group::Reporter,
            Kind::Position | Kind::Blocked => Group::Position,
            Kind::EnergyGiven | Kind::EnergySequence | Kind::PairGiven | Kind::PairSequence =>
                Group::Entry,
            Kind::Penalty => Group::Penalty,
            Kind::Ring => Group::Ring,
        }
    }
}

// How many rows are of a group.
pub(crate) fn count_of(rows: &[Row], group: Group) -> usize
    ensures { result ≡ count_of group rows.now }
{
    rows.iter()
        .filter(|row| Group::from(row.kind) == group)
        .count()
}

// The first row of a group.
pub(crate) fn first_of(rows: &[Row], group: Group) -> Option<&Row>
    ensures { option_copied result ≡ first_of group rows.now }
{
    rows.iter().find(|row| Group::from(row.kind) == group)
}

// The places of a group's rows, in order and as far as they fit, into lent memory: no heap for a list of them.
pub(crate) fn rows_of(rows: &[Row], group: Group, chosen: &mut [usize])
    ensures { chosen.new ≡ laid group rows.now chosen.old }
{
    // Stored by number: of what is written through a `zip` of an `iter_mut` nothing is known.
    let mut n = 0;
    for (i, row) in rows.iter().enumerate() {
        if n < chosen.len() && Group::from(row.kind) == group {
            chosen[n] = i;
            n += 1;
        }
    }
}

// Word j of a row; a size of 0 where there is none.
pub(crate) fn word_of(rows: &[Row], row: usize, j: usize) -> Word
    ensures { result ≡ word_in rows.now row j }
{
    rows.get(row)
        .and_then(|row| row.words.get(j).copied())
        .unwrap_or_default()
}

// Rows of one group, by their places among all rows.
#[derive(Clone, Copy)]
pub(crate) struct Chosen<'a> {
    pub(crate) rows: &'a [Row],
    pub(crate) places: &'a [usize],
}

impl<'a> Chosen<'a> {
    // A group's rows: their places are written into a slice that has an entry for each.
    #[tactic(auto, using(crate::proofs::Theorems::laid_whole))]
    pub(crate) fn of(rows: &'a [Row], group: Group, places: &'a mut [usize]) -> Self
        requires { length places.old ≡ count_of group rows.now }
        ensures rows { result.rows.now ≡ rows.now }
        ensures places { result.places.now ≡ rows_of group rows.now }
    {
        rows_of(rows, group, places);
        Chosen { rows, places }
    }
}

impl Chosen<'_> {
    // Row k of these.
    pub(crate) fn row(&self, k: usize) -> Option<&Row>
        ensures { option_copied result ≡ row_among self.now.rows.now self.now.places.now k }
    {
        self.rows.get(*self.places.get(k)?)
    }

    // Its word j; a size of 0 where there is none.
    pub(crate) fn word(&self, k: usize, j: usize) -> Word
        requires { j < 4 }
        ensures { result ≡ word_among self.now.rows.now self.now.places.now k j }
    {
        self.row(k).map_or(Word::default(), |row| row.words[j])
    }

    // Its number j; 0.0 where there is none.
    pub(crate) fn number(&self, k: usize, j: usize) -> f64
        requires { j < 3 }
        ensures { result ≡ number_among self.now.rows.now self.now.places.now k j }
    {
        self.row(k).map_or(0.0, |row| row.numbers[j])
    }

    // Its kind.
    pub(crate) fn kind(&self, k: usize) -> Option<Kind>
        ensures { result ≡ kind_among self.now.rows.now self.now.places.now k }
    {
        self.row(k).map(|row| row.kind)
    }
}

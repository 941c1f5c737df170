// The statement of a line.
ghost use Rattle.std.specs.Prelude.{◌≡◌, ◌<◌, ◌+◌};
ghost use Rattle.std.specs.Option.{ForSome};
ghost use Rattle.statements.specs.Words.{words_in};
ghost use Rattle.statements.specs.inner.Words.{Inside};
ghost use Rattle.statements.specs.Grammar.{InRow};
ghost use Rattle.statements.specs.Statement.{reason_of, reason_of_amount, blank, put, glue_of, accepted, closed, fit, statement_of};

use crate::amounts::read_amount;
use crate::grammar::{Item, Kind};
use crate::words::{NumberedLine, Word, Words, bytes, next_word};
use decimals::{NumberFault, read_number};

// Why a line can't be read.
#[derive(Clone, Copy, PartialEq, Eq)]
pub enum Reason {
    NoSuchStatement,
    TooFewWords,
    TooManyWords,
    NotANumber,
    // Where an amount has to stand.
    NotAnAmount,
    // A number with more than 17 digits.
    TooManyDigits,
    // A number whose exponent, or last place, is too large or too small.
    OutOfReach,
    NeitherDgNorSeq,
    NotDs,
    // A `-` where a name has to stand.
    NotAName,
}

impl From<NumberFault> for Reason {
    ghost from_gives = { λ fault reason. reason ≡ reason_of fault };

    fn from(fault: NumberFault) -> Self {
        match fault {
            NumberFault::NotANumber => Reason::NotANumber,
            NumberFault::TooManyDigits => Reason::TooManyDigits,
            NumberFault::OutOfReach => Reason::OutOfReach,
        }
    }
}

// Why a word is no amount.
fn reason_of_amount(fault: NumberFault) -> Reason
    ensures { result ≡ reason_of_amount fault }
{
    match fault {
        NumberFault::NotANumber => Reason::NotAnAmount,
        fault => fault.into(),
    }
}

// The word at which a line can't be read, and why.
#[derive(Clone, Copy, PartialEq, Eq)]
pub struct Fault {
    pub word: Word,
    pub reason: Reason,
}

// A row. A word that is absent, or that the kind does not have, has the size 0; a number that the kind does not have is 0.0. No Options: `sheet`
// hands words on as rows of plain numbers, a mark, a start and a size, and the start of a `-` with them. By place and no fields of each kind: the n-th
// word is asked for of rows of any kind.
#[derive(Clone, Copy)]
pub struct Row {
    pub kind: Kind,
    // Whether its amount, number 0, is a concentration.
    pub concentration: bool,
    // The number of its line, from 1.
    pub line: usize,
    pub words: [Word; 4],
    pub numbers: [f64; 3],
}

// What a line holds.
#[derive(Clone, Copy)]
pub enum Statement {
    // A line without words.
    Nothing,
    OneRow(Row),
    // A row of this kind for each word from a place on.
    Positions(Kind, usize),
}

// A glue as it is kept: of `-` no bytes are.
pub(crate) fn glue_of(bytes: &[u8], word: Word) -> Word
    ensures { result ≡ glue_of bytes.now word }
{
    match bytes {
        b"-" => Word { size: 0, ..word },
        _ => word,
    }
}

impl Row {
    // A row of a kind in a line, with nothing in its slots.
    pub fn blank(kind: Kind, line: usize) -> Self
        ensures { result ≡ blank kind line }
    {
        Row {
            kind,
            concentration: false,
            line,
            words: [Word::default(); 4],
            numbers: [0.0; 3],
        }
    }

    // The row with a word in a slot.
    #[tactic(auto, unfolding(crate::specs::Statement::put))]
    pub(crate) fn put(mut self, slot: usize, word: Word) -> Self
        requires { slot < 4 }
        ensures { result ≡ put slot word self }
    {
        self.words[slot] = word;
        self
    }

    // The row after one word more, which has to be an item.
    #[tactic(auto, unfolding(crate::specs::Statement::accepted, crate::specs::Statement::number_put, crate::specs::Statement::put_number, crate::specs::Statement::amount_put, crate::specs::Statement::put_amount))]
    fn accept(mut self, bytes: &[u8], item: Option<Item>, word: Word) -> Result<Self, Fault>
        requires { ForSome item InRow }
        ensures { result ≡ accepted bytes.now item word self }
    {
        let fault = |reason| Fault { word, reason };
        let Some(item) = item else {
            return Err(fault(Reason::TooManyWords));
        };
        match item {
            Item::Number(slot) => {
                self.numbers[slot] = read_number(bytes).map_err(|why| fault(why.into()))?;
                Ok(self)
            }
            Item::Amount => {
                let amount = read_amount(bytes).map_err(|why| fault(reason_of_amount(why)))?;
                self.numbers[0] = amount.number;
                self.concentration = amount.concentration;
                Ok(self)
            }
            Item::Name(slot) => match bytes {
                b"-" => Err(fault(Reason::NotAName)),
                _ => Ok(self.put(slot, word)),
            },
            Item::Glue(slot) => Ok(self.put(slot, glue_of(bytes, word))),
            Item::Bases(slot) => Ok(self.put(slot, word)),
            Item::DgOrSeq => match bytes {
                b"dg" => Ok(self),
                b"seq" => Ok(Row {
                    kind: self.kind.with_sequence(),
                    ..self
                }),
                _ => Err(fault(Reason::NeitherDgNorSeq)),
            },
            Item::Ds => match bytes {
                b"ds" => Ok(self),
                _ => Err(fault(Reason::NotDs)),
            },
        }
    }

    // The row where the words have come to their end. Of too few words the keyword tells.
    #[tactic(auto, unfolding(crate::specs::Statement::closed))]
    fn close(self, item: Option<Item>, key: Word) -> Result<Self, Fault>
        ensures { result ≡ closed item key self }
    {
        match item {
            None => Ok(self),
            Some(_) => Err(Fault {
                word: key,
                reason: Reason::TooFewWords,
            }),
        }
    }
}

// The row of the words after the keyword. What a word has to be hangs on those before it.
fn fit(line: &NumberedLine<'_>, key: Word, kind: Kind) -> Result<Row, Fault>
    requires { Inside line.now.text.now key }
    ensures { result ≡ fit line.now.text.now key 0 (blank kind line.now.number) (words_in line.now.text.now (key.start + key.size)) }
{
    let mut row = Row::blank(kind, line.number);
    // Counted by hand: the count is asked for after the loop.
    let mut place = 0;
    for word in Words::of(line.text, key.end()) {
        row = row.accept(bytes(line.text, word), row.kind.item_at(place), word)?;
        place += 1;
    }
    row.close(row.kind.item_at(place), key)
}

// The statement of a line.
pub(crate) fn statement_of(line: &NumberedLine<'_>) -> Result<Statement, Fault>
    ensures { result ≡ statement_of line.now.text.now line.now.start line.now.number }
{
    let Some(key) = next_word(line.text, line.start) else {
        return Ok(Statement::Nothing);
    };
    let Some(kind) = Kind::of(bytes(line.text, key)) else {
        return Err(Fault {
            word: key,
            reason: Reason::NoSuchStatement,
        });
    };
    if kind.is_position() {
        return Ok(Statement::Positions(kind, key.end()));
    }
    let row = fit(line, key, kind)?;
    Ok(Statement::OneRow(row))
}

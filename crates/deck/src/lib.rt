// Stored configurations: the archive's deck of words, read and written.
#![tactic(auto)]

mod form;
mod reading;
pub mod word;
mod writing;

ghost use Rattle.std.specs.Prelude.{◌≡◌, take};
ghost use Rattle.reply.specs.Number.{answered};
ghost use Rattle.deck.specs.Forms.{form_of, other_form};
ghost use Rattle.deck.specs.Reading.{read_figures_of, read_figures, read_entries};
ghost use Rattle.deck.specs.Writing.{wrong_lengths, write_figures_of, write_figures, write_words};
ghost use Rattle.deck.specs.Moving.{move_figures_of, move_figures, move_words, MovesTo};
ghost use Rattle.deck.specs.inner.Fault.{fault_reply};

use reply::limits::POSITIONS;
use reply::{Refusal, Refused, refused_if};

// A first word, and a word for each position at most.
const WORDS: usize = 129;

// How a deck stores strands.
#[derive(Clone, Copy, PartialEq, Eq, Debug)]
pub enum DeckForm {
    // Document 01's form: a word for each strand.
    Singles,
    // A word for each run of one strand.
    Runs,
}

impl DeckForm {
    // The form that a deck is moved to.
    pub fn other(self) -> Self
        ensures { result ≡ other_form self }
    {
        match self {
            DeckForm::Singles => DeckForm::Runs,
            DeckForm::Runs => DeckForm::Singles,
        }
    }

    // Whether neighbouring positions with this occupant are one run.
    pub(crate) fn in_runs(self, occupant: u8) -> bool
        ensures { result ≡ (form_of self).in_runs occupant }
    {
        match self {
            DeckForm::Singles => occupant == 0,
            DeckForm::Runs => true,
        }
    }
}

// Refuses a fault in a deck's words, at its place.
fn checked(form: DeckForm, words: &[u32]) -> Result<(), Refused>
    ensures { result ≡ fault_reply (form_of form) words.now }
{
    match reading::fault(form, words) {
        Some(place) => Err(Refused {
            refusal: Refusal::BadDeck,
            place: Some(place),
        }),
        None => Ok(()),
    }
}

// Reads a deck's words, any number of them, into 128 lent entries.
pub fn read(form: DeckForm, words: &[u32], entries: &mut [u8]) -> Result<usize, Refused>
    ensures { (read_figures_of result ≡ read_figures (form_of form) words.now entries.old) × (entries.new ≡ read_entries (form_of form) words.now entries.old) }
{
    refused_if(Refusal::WrongSize, entries.len() != POSITIONS)?;
    checked(form, words)?;
    Ok(reading::unpack(form, words, entries))
}

// Whether there are too many positions, or other than 129 words are lent.
fn wrong_lengths(configuration: &[u8], words: &[u32]) -> bool
    ensures { result ≡ wrong_lengths configuration.now words.now }
{
    POSITIONS < configuration.len() || words.len() != WORDS
}

// Writes the deck of a configuration of 0 to 128 entries into 129 lent words.
pub fn write(form: DeckForm, configuration: &[u8], words: &mut [u32]) -> Result<usize, Refusal>
    ensures { (write_figures_of result ≡ write_figures (form_of form) configuration.now words.old) × (words.new ≡ write_words (form_of form) configuration.now words.old) }
{
    refused_if(Refusal::WrongSize, wrong_lengths(configuration, words))?;
    refused_if(Refusal::OutOfRange, writing::some_too_high(configuration))?;
    Ok(writing::pack(form, configuration, words))
}

// Moves a deck's words, any number of them, into the other form: the deck of the same configuration, in 129 lent words.
pub fn move_deck(from: DeckForm, words: &[u32], moved: &mut [u32]) -> Result<usize, Refused>
    ensures result_value { move_figures_of result ≡ move_figures (form_of from) (form_of (other_form from)) words.now moved.old }
    ensures moved_after { moved.new ≡ move_words (form_of from) (form_of (other_form from)) words.now moved.old }
    ensures moves_to { (move_figures_of result).number ≡ answered → MovesTo (form_of from) (form_of (other_form from)) words.now (take (move_figures_of result).count moved.new) }
{
    refused_if(Refusal::WrongSize, moved.len() != WORDS)?;
    checked(from, words)?;
    let mut entries = [0; POSITIONS];
    let count = reading::unpack(from, words, &mut entries);
    Ok(writing::pack(from.other(), &entries[..count], moved))
}

// Stored configurations as C callers have them. A form is a number: 0 document 01's, 1 with runs; any other is refused with 1.
ghost use Rattle.std.specs.Prelude.{◌≡◌, take};
ghost use Rattle.reply.specs.Number.{answered};
ghost use Rattle.reply.specs.Figures.{result_figures};
ghost use Rattle.deck.specs.Writing.{write_figures_of};
ghost use Rattle.exports.specs.Place.{place_number};
ghost use Rattle.exports.specs.Told.{Told};
ghost use Rattle.exports.specs.Stored.{form_numbered, read_in, entries_in, write_in, words_in, move_from, moved_from, MovesFrom};

use super::answers::tell;
use super::figures::figure_tell;
use deck::DeckForm;
use reply::{Refusal, Refused};

// The form that a number names: 0 and 1 name one each. By its number a form is named only here, so that `DeckForm` has no `TryFrom`; a loop's kind has
// one, since `utils` takes its number. Each call matches what this gives: of lent words that a closure under `and_then` writes, what they hold
// afterwards was not proved.
fn form_of(number: u32) -> Option<DeckForm>
    ensures { result ≡ form_numbered number }
{
    match number {
        0 => Some(DeckForm::Singles),
        1 => Some(DeckForm::Runs),
        _ => None,
    }
}

// The reply number of reading or moving, the place of a fault, and the number of positions or of words.
fn tell_count(answer: Result<usize, Refused>, place: &mut u64, count: &mut u64) -> u32
    ensures { Told (result_figures 0 (λ count. count) answer) result place.new count.new }
{
    tell(answer.map(|count| count as u64), 0, place, count)
}

// The reply number of writing, and the number of words.
fn tell_written(answer: Result<usize, Refusal>, count: &mut u64) -> u32
    ensures value { result ≡ (write_figures_of answer).number }
    ensures count_after { count.new ≡ (write_figures_of answer).count }
{
    figure_tell(answer.map(|count| count as u64), 0, count)
}

// Reads a deck into 128 lent entries, and tells how many positions it has. Replies 1, 14.
pub fn mj_deck_read(
    form: u32,
    words: &[u32],
    entries: &mut [u8],
    place: &mut u64,
    count: &mut u64,
) -> u32
    ensures value { result ≡ (read_in (form_numbered form) words.now entries.old).number }
    ensures place_after { place.new ≡ place_number (read_in (form_numbered form) words.now entries.old).place }
    ensures count_after { count.new ≡ (read_in (form_numbered form) words.now entries.old).count }
    ensures entries_after { entries.new ≡ entries_in (form_numbered form) words.now entries.old }
{
    let answer = match form_of(form) {
        Some(known) => deck::read(known, words, entries),
        None => Err(Refusal::WrongSize.into()),
    };
    tell_count(answer, place, count)
}

// Writes the deck of a configuration into 129 lent words, and tells how many it has. Replies 1, 9.
pub fn mj_deck_write(form: u32, configuration: &[u8], words: &mut [u32], count: &mut u64) -> u32
    ensures value { result ≡ (write_in (form_numbered form) configuration.now words.old).number }
    ensures count_after { count.new ≡ (write_in (form_numbered form) configuration.now words.old).count }
    ensures words_after { words.new ≡ words_in (form_numbered form) configuration.now words.old }
{
    let answer = match form_of(form) {
        Some(known) => deck::write(known, configuration, words),
        None => Err(Refusal::WrongSize),
    };
    tell_written(answer, count)
}

// Moves a deck of a form into the other form, in 129 lent words, and tells how many it has. Replies 1, 14.
pub fn mj_deck_move(
    form: u32,
    words: &[u32],
    moved: &mut [u32],
    place: &mut u64,
    count: &mut u64,
) -> u32
    ensures value { result ≡ (move_from (form_numbered form) words.now moved.old).number }
    ensures place_after { place.new ≡ place_number (move_from (form_numbered form) words.now moved.old).place }
    ensures count_after { count.new ≡ (move_from (form_numbered form) words.now moved.old).count }
    ensures moved_after { moved.new ≡ moved_from (form_numbered form) words.now moved.old }
    ensures moves_from { result ≡ answered → MovesFrom (form_numbered form) words.now (take count.new moved.new) }
{
    let answer = match form_of(form) {
        Some(known) => deck::move_deck(known, words, moved),
        None => Err(Refusal::WrongSize.into()),
    };
    tell_count(answer, place, count)
}

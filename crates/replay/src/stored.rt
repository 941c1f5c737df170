// Decks as the list writes them, 8 hex digits for each word, and a function for each kind of line about one. A deck with no words is
// written as `-`.
ghost use Rattle.std.specs.Prelude.{◌≡◌, ℕ, ◌<◌, ◌≤◌, true, [], length, slice_index, slice_index_or, OnSome};
ghost use Rattle.decimals.specs.Digits.{digits_in};
ghost use Rattle.replay.specs.Stored.{Deck, SaysDeck, ReadLine, WriteLine, MoveLine};

use crate::kinds::letters;
use crate::numbers::{is_hex, value, whole};
use crate::parts::split_at_first;
use crate::places::{is_places, read_places, says_places};
use crate::says::refused;
use reply::limits::POSITIONS;

// One word more, and one position more, than a deck can have.
const WORDS: usize = 130;

const PLACES: usize = 129;

// What writing is lent.
const LENT: usize = 129;

// One word of a deck in each part.
fn are_words(parts: &[[u8; 8]], deck: &[u32]) -> bool
    ensures { result ≡ true → (length parts.now ≡ length deck.now) × ((k : ℕ) → k < length parts.now → slice_index_or parts.now k [] ≡ digits_in 16 8 (slice_index deck.now k)) }
{
    parts.len() == deck.len()
        && parts
            .iter()
            .zip(deck)
            .all(|(part, word)| is_hex(part, u64::from(*word), 8))
}

// Whether a word is a deck.
fn is_deck(word: &[u8], deck: &[u32]) -> bool
    ensures { result ≡ true → Deck word.now deck.now }
{
    let (parts, rest) = letters(word).as_chunks::<8>();
    if !rest.is_empty() {
        return false;
    }
    are_words(parts, deck)
}

// Reads a word without care into the first of the lent words, and answers how many they are; no more than are lent.
fn read_deck(word: &[u8], deck: &mut [u32]) -> usize
    ensures { result ≤ length deck.old }
{
    let (parts, _) = letters(word).as_chunks::<8>();
    let n = parts.len().min(deck.len());
    for (word, part) in deck.iter_mut().zip(parts) {
        let read = value(part, 16).unwrap_or(0);
        *word = u32::try_from(read).unwrap_or(0);
    }
    n
}

// `ok DECK` of a call that is answered, and its number where it is refused: `Some` where the words say so.
fn says_deck(words: &[u8], number: u32, deck: &[u32]) -> Option<()>
    ensures { OnSome result (SaysDeck words.now number deck.now) }
{
    if number != 0 {
        return refused(words, number);
    }
    let (first, second) = split_at_first(words, b' ');
    if first != b"ok".as_slice() {
        return None;
    }
    is_deck(second, deck).then_some(())
}

// `FORM DECK`: reading it.
pub(crate) fn read(words: &[u8]) -> Option<()>
    ensures { OnSome result (ReadLine words.now) }
{
    let (first, rest) = split_at_first(words, b' ');
    let (second, answer) = split_at_first(rest, b' ');
    let form = whole(first)?;
    let mut room = [0u32; WORDS];
    let n = read_deck(second, &mut room);
    let deck = &room[..n];
    if !is_deck(second, deck) {
        return None;
    }
    let mut entries = [0u8; POSITIONS];
    let mut place: u64 = 0;
    let mut count: u64 = 0;
    let reply = exports::stored::mj_deck_read(form, deck, &mut entries, &mut place, &mut count);
    let configuration = entries.get(..count as usize)?;
    says_places(answer, reply, configuration)
}

// `FORM PLACES`: writing it.
pub(crate) fn write(words: &[u8]) -> Option<()>
    ensures { OnSome result (WriteLine words.now) }
{
    let (first, rest) = split_at_first(words, b' ');
    let (second, answer) = split_at_first(rest, b' ');
    let form = whole(first)?;
    let mut room = [0u8; PLACES];
    let n = read_places(second, &mut room);
    let configuration = &room[..n];
    if !is_places(second, configuration) {
        return None;
    }
    let mut written = [0u32; LENT];
    let mut count: u64 = 0;
    let reply = exports::stored::mj_deck_write(form, configuration, &mut written, &mut count);
    let deck = written.get(..count as usize)?;
    says_deck(answer, reply, deck)
}

// `FORM DECK`: moving it into the other form.
pub(crate) fn move_deck(words: &[u8]) -> Option<()>
    ensures { OnSome result (MoveLine words.now) }
{
    let (first, rest) = split_at_first(words, b' ');
    let (second, answer) = split_at_first(rest, b' ');
    let form = whole(first)?;
    let mut room = [0u32; WORDS];
    let n = read_deck(second, &mut room);
    let deck = &room[..n];
    if !is_deck(second, deck) {
        return None;
    }
    let mut written = [0u32; LENT];
    let mut place: u64 = 0;
    let mut count: u64 = 0;
    let reply = exports::stored::mj_deck_move(form, deck, &mut written, &mut place, &mut count);
    let moved = written.get(..count as usize)?;
    says_deck(answer, reply, moved)
}

// Configurations as the list writes them: a byte for each place, 48 and the number of its strand, so that an empty place is 0 and
// strand 1 is 1. One with no places is written as `-`.
ghost use Rattle.std.specs.Prelude.{◌≡◌, ◌≤◌, true, map, length, OnSome};
ghost use Rattle.replay.specs.Places.{letter, SaysPlaces, Places};

use crate::kinds::letters;
use crate::parts::split_at_first;
use crate::says::refused;

// Whether the letters are those of the places.
fn are_letters(text: &[u8], places: &[u8]) -> bool
    ensures { result ≡ true → text.now ≡ map letter places.now }
{
    text.len() == places.len()
        && text
            .iter()
            .zip(places)
            .all(|(letter, place)| *place <= 207 && *letter == *place + 48)
}

// Whether a word is a configuration.
pub(crate) fn is_places(word: &[u8], places: &[u8]) -> bool
    ensures { result ≡ true → Places word.now places.now }
{
    are_letters(letters(word), places)
}

// Reads a word without care into the first of the lent places, and answers how many they are; no more than are lent.
pub(crate) fn read_places(word: &[u8], places: &mut [u8]) -> usize
    ensures { result ≤ length places.old }
{
    let text = letters(word);
    let n = text.len().min(places.len());
    for (place, letter) in places.iter_mut().zip(text) {
        *place = letter.wrapping_sub(48);
    }
    n
}

// `ok PLACES` of a call that is answered, and its number where it is refused: `Some` where the words say so.
pub(crate) fn says_places(words: &[u8], number: u32, places: &[u8]) -> Option<()>
    ensures { OnSome result (SaysPlaces words.now number places.now) }
{
    if number != 0 {
        return refused(words, number);
    }
    let (first, second) = split_at_first(words, b' ');
    if first != b"ok".as_slice() {
        return None;
    }
    is_places(second, places).then_some(())
}

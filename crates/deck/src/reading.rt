// Reading a deck's words: the place of a fault, and the configuration that a valid deck stands for.
ghost use Rattle.std.specs.Prelude.{◌≡◌, true, length};
ghost use Rattle.std.proofs.lemmas.List.Edits.{sets};
ghost use Rattle.deck.specs.Forms.{form_of};
ghost use Rattle.deck.specs.Deck.{is_deck, configuration_of};
ghost use Rattle.deck.specs.inner.Fault.{fault_of};

use super::DeckForm;
use super::form::{FIRST, Stretch};
use super::word::Word;
use reply::limits::POSITIONS;

// The place of the fault, and none in a valid deck.
pub(crate) fn fault(form: DeckForm, words: &[u32]) -> Option<usize>
    ensures { result ≡ fault_of (form_of form) words.now }
{
    let Some((first, rest)) = words.split_first() else {
        return Some(0);
    };
    let first = Word::of(*first);
    let mut left = first.payload as usize;
    if first.kind != FIRST || POSITIONS < left {
        return Some(0);
    }
    let mut before = None;
    for (i, word) in rest.iter().enumerate() {
        let Some(here) = Stretch::of(form, *word) else {
            return Some(i + 1);
        };
        if here.joins(form, before) || left < here.run {
            return Some(i + 1);
        }
        left -= here.run;
        before = Some(here);
    }
    if left == 0 { None } else { Some(words.len()) }
}

// The configuration of a valid deck, and its number of positions.
pub(crate) fn unpack(form: DeckForm, words: &[u32], entries: &mut [u8]) -> usize
    requires { (is_deck (form_of form) words.now ≡ true) × (length entries.old ≡ 128) }
    ensures { (result ≡ length (configuration_of (form_of form) words.now)) × (entries.new ≡ sets entries.old 0 (configuration_of (form_of form) words.now)) }
{
    let (_, rest) = words.split_at(1);
    let mut at = 0;
    for word in rest {
        // Each word of a valid deck stands for one.
        if let Some(stretch) = Stretch::of(form, *word) {
            let end = at + stretch.run;
            entries[at..end].fill(stretch.occupant);
            at = end;
        }
    }
    at
}

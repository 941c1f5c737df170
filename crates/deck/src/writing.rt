// Writing the deck of a configuration.
ghost use Rattle.std.specs.Prelude.{◌≡◌, ◌∷◌, ◌+◌, ◌≤◌, length, drop, map};
ghost use Rattle.std.specs.Iterator.{YieldsFirst, item_count};
ghost use Rattle.std.proofs.lemmas.List.Edits.{sets};
ghost use Rattle.lists.specs.Find.{any};
ghost use Rattle.deck.specs.Form.{stretch};
ghost use Rattle.deck.specs.Forms.{form_of};
ghost use Rattle.deck.specs.Deck.{deck_of, stretches_of, too_high};

use super::DeckForm;
use super::form::{FIRST, LAST_STRAND, Stretch};
use super::word::Word;

// Whether an entry is above the highest strand number.
pub(crate) fn some_too_high(configuration: &[u8]) -> bool
    ensures { result ≡ any too_high configuration.now }
{
    configuration.iter().any(|occupant| *occupant > LAST_STRAND)
}

// How many positions the first stretch has. The form is asked once for a run, and not for each of its positions.
fn first_run(form: DeckForm, first: u8, left: &[u8]) -> usize
    requires { left.now ≡ first ∷ drop 1 left.now }
    ensures { (result ≤ length left.now) × (stretches_of (form_of form) left.now ≡ stretch first result ∷ stretches_of (form_of form) (drop result left.now)) }
{
    if !form.in_runs(first) {
        return 1;
    }
    left.iter()
        .take_while(|occupant| **occupant == first)
        .count()
}

// The stretches of what is left of a configuration.
#[derive(Drop)]
struct Stretches<'a> {
    form: DeckForm,
    left: &'a [u8],
}

impl Iterator for Stretches<'_> {
    type Item = Stretch;

    ghost next_gives = { YieldsFirst (λ s. stretches_of (form_of s.form) s.left.now) };

    ghost remaining = { item_count (λ s. stretches_of (form_of s.form) s.left.now) };

    fn next(&mut self) -> Option<Stretch> {
        let (first, _) = self.left.split_first()?;
        let stretch = Stretch {
            occupant: *first,
            run: first_run(self.form, *first, self.left),
        };
        self.left = &self.left[stretch.run..];
        Some(stretch)
    }
}

// Writes the words of a configuration's stretches after the first word, and gives the number of words with it.
fn lay(form: DeckForm, configuration: &[u8], words: &mut [u32]) -> usize
    requires { (length configuration.now ≤ 128) × (length words.old ≡ 129) }
    ensures { (result ≡ 1 + length (stretches_of (form_of form) configuration.now)) × (words.new ≡ sets words.old 1 (map (form_of form).word_for (stretches_of (form_of form) configuration.now))) }
{
    // Counted by hand: the count is the result.
    let mut count = 1;
    for stretch in (Stretches {
        form,
        left: configuration,
    }) {
        words[count] = stretch.bits(form);
        count += 1;
    }
    count
}

// The deck of a configuration, and its number of words. Each form has a loop of its own, in which it is known.
pub(crate) fn pack(form: DeckForm, configuration: &[u8], words: &mut [u32]) -> usize
    requires { (length configuration.now ≤ 128) × (length words.old ≡ 129) }
    ensures { (result ≡ length (deck_of (form_of form) configuration.now)) × (words.new ≡ sets words.old 0 (deck_of (form_of form) configuration.now)) }
{
    words[0] = Word {
        kind: FIRST,
        payload: configuration.len() as u32,
    }
    .bits();
    match form {
        DeckForm::Singles => lay(DeckForm::Singles, configuration, words),
        DeckForm::Runs => lay(DeckForm::Runs, configuration, words),
    }
}

// The forms: the kinds of words, what a word after the first stands for, and which may follow which.
ghost use Rattle.std.specs.Prelude.{◌≡◌, ◌≤◌};
ghost use Rattle.deck.specs.Form.{one_strand, empties, strand_run};
ghost use Rattle.deck.specs.Forms.{form_of};
ghost use Rattle.deck.specs.inner.Found.{found, joins};

use super::DeckForm;
use super::word::Word;

// The first word: the number of positions.
pub(crate) const FIRST: u32 = 1;
// One strand, in document 01's form.
const STRAND: u32 = 2;
// A run of empties.
const EMPTIES: u32 = 3;
// A run of one strand, in the form with runs.
const STRAND_RUN: u32 = 4;

// The highest strand number.
pub(crate) const LAST_STRAND: u8 = 63;
// In the payload of a run, a strand's number is counted in ones and the rest of the run in these.
const STRAND_NUMBERS: u32 = 64;

// Positions in a row with one occupant: a strand's number, or 0 for empty places, as a configuration is lent.
#[derive(Clone, Copy)]
pub struct Stretch {
    pub occupant: u8,
    pub run: usize,
}

impl Stretch {
    // The stretch that a word stands for, if it is a word of the form.
    pub(crate) fn of(form: DeckForm, bits: u32) -> Option<Self>
        ensures { result ≡ found ((form_of form).stretch_of bits) }
    {
        let Word { kind, payload } = Word::of(bits);
        match (form, kind) {
            (_, EMPTIES) => Stretch::empties(payload),
            (DeckForm::Singles, STRAND) => Stretch::one_strand(payload),
            (DeckForm::Runs, STRAND_RUN) => Stretch::strand_run(payload),
            _ => None,
        }
    }

    // Kind 2, whose payload is a strand's number.
    fn one_strand(payload: u32) -> Option<Self>
        ensures { result ≡ found (one_strand payload) }
    {
        if payload == 0 || payload > u32::from(LAST_STRAND) {
            return None;
        }
        Some(Stretch {
            occupant: payload as u8,
            run: 1,
        })
    }

    // Kind 3, whose payload is a run of empty places.
    fn empties(payload: u32) -> Option<Self>
        ensures { result ≡ found (empties payload) }
    {
        if payload == 0 {
            return None;
        }
        Some(Stretch {
            occupant: 0,
            run: payload as usize,
        })
    }

    // Kind 4, whose payload is a strand's number and the rest of its run.
    fn strand_run(payload: u32) -> Option<Self>
        ensures { result ≡ found (strand_run payload) }
    {
        let strand = payload % STRAND_NUMBERS;
        if strand == 0 {
            return None;
        }
        Some(Stretch {
            occupant: strand as u8,
            run: (payload / STRAND_NUMBERS + 1) as usize,
        })
    }

    // The word that stands for the stretch.
    pub(crate) fn bits(self, form: DeckForm) -> u32
        requires { (1 ≤ self.run) × (self.run ≤ 128) }
        ensures { result ≡ (form_of form).word_for self }
    {
        if self.occupant == 0 {
            return Word {
                kind: EMPTIES,
                payload: self.run as u32,
            }
            .bits();
        }
        match form {
            DeckForm::Singles => Word {
                kind: STRAND,
                payload: u32::from(self.occupant),
            }
            .bits(),
            DeckForm::Runs => Word {
                kind: STRAND_RUN,
                payload: u32::from(self.occupant) + STRAND_NUMBERS * (self.run - 1) as u32,
            }
            .bits(),
        }
    }

    // Whether it is of one run with what stands before.
    pub(crate) fn joins(self, form: DeckForm, before: Option<Stretch>) -> bool
        ensures { result ≡ joins (form_of form) before self }
    {
        before.is_some_and(|before| before.occupant == self.occupant && form.in_runs(self.occupant))
    }
}

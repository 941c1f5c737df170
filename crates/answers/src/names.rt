// Who sits at a position, and the names under which strands are shown.
ghost use Rattle.std.specs.Prelude.{◌≡◌, length};
ghost use Rattle.answers.specs.Names.{occupant_of, occupant_at, word_of, name_of, or_dash};

use crate::SettledDesign;
use crate::reads::part;
use design::friends::BLOCKED;
use design::reads::byte_at;
use statements::words::Word;

// Who sits at a position.
#[derive(Clone, Copy)]
pub(crate) enum Occupant {
    Nobody,
    // A user strand by its place in the file, from 0.
    Strand(usize),
    Quencher,
    Reporter,
    // The position is blocked.
    Blocked,
}

impl SettledDesign<'_> {
    // By the number in a configuration: 0, the user strands, the quencher, the reporter.
    pub(crate) fn occupant_of(&self, number: u8) -> Occupant
        ensures { result ≡ occupant_of (length self.now.strand_names.now) number }
    {
        let number = usize::from(number);
        let users = self.strand_names.len();
        if number == 0 {
            return Occupant::Nobody;
        }
        if number <= users {
            return Occupant::Strand(number - 1);
        }
        if number - 1 == users {
            return Occupant::Quencher;
        }
        Occupant::Reporter
    }

    // At position i. Where the position is blocked, nobody can sit.
    pub(crate) fn occupant_at(&self, i: usize) -> Occupant
        ensures { result ≡ occupant_at self.now.marks.now self.now.configuration.now (length self.now.strand_names.now) i }
    {
        if byte_at(self.marks, i) == BLOCKED {
            return Occupant::Blocked;
        }
        self.occupant_of(byte_at(self.configuration, i))
    }

    // The bytes of word i of a list; nothing past its end.
    fn word_at(&self, words: &[Word], i: usize) -> &[u8]
        ensures { result.now ≡ word_of self.now.text.now words.now i }
    {
        let word = words.get(i).copied().unwrap_or_default();
        part(self.text, word)
    }

    // The name of who sits at a position.
    pub(crate) fn name_of(&self, occupant: Occupant) -> &[u8]
        ensures { result.now ≡ name_of self.now.text.now self.now.strand_names.now occupant }
    {
        match occupant {
            Occupant::Nobody => b"-",
            Occupant::Strand(i) => self.word_at(self.strand_names, i),
            Occupant::Quencher => b"quencher",
            Occupant::Reporter => b"reporter",
            Occupant::Blocked => b"blocked",
        }
    }

    // The glue of position i, or - where it has none: its word has no bytes.
    pub(crate) fn glue_at(&self, i: usize) -> &[u8]
        ensures { result.now ≡ or_dash (word_of self.now.text.now self.now.glues.now i) }
    {
        match self.word_at(self.glues, i) {
            [] => b"-",
            glue => glue,
        }
    }
}

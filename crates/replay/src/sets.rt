// The parameter set that lines have set.
ghost use Rattle.std.specs.Prelude.{◌≤◌};

use crate::about::{double_of, size};
use crate::kinds::letters;
use crate::numbers::decimal;
use crate::parts::split_at_first;
use crate::setting::{set_double, set_number};
use exports::params::copies;
use sdc1d_params::{Copies, LentParameters};
use units::{KcalPerMol, KcalPerMolKelvin};
use utils::DgDs;

// The most bytes of text, user strands, positions and entries of a set in the list.
const BYTES: usize = 256;

const USERS: usize = 12;

pub(crate) const POSITIONS: usize = 8;

const ENTRIES: usize = 8;

// Strand 0, quencher and reporter have glues beside those of the user strands.
pub(crate) const SIDES: usize = 3 * (USERS + 3);

// Its text and its rows from the start of each array, and how many of them are its own.
#[derive(Drop)]
pub(crate) struct Parameters {
    text: [u8; BYTES],
    strands: [usize; 9 * USERS],
    scaffold: [usize; 3 * POSITIONS],
    entries: [usize; 8 * ENTRIES],
    energies: [f64; 2 * ENTRIES],
    bytes: usize,
    users: usize,
    positions: usize,
    count: usize,
    penalty: DgDs,
    copied: Copies,
    ghost few_bytes: { bytes ≤ 256 },
    ghost few_users: { users ≤ 12 },
    ghost few_positions: { positions ≤ 8 },
    ghost few_entries: { count ≤ 8 },
}

// Whose glues are copied: a strand's number, or 0 for none, which is what a word that is no number gives.
fn copied(word: &[u8]) -> usize {
    decimal(word).unwrap_or(0) as usize
}

impl Parameters {
    // `USERS POSITIONS ENTRIES QUENCHER REPORTER PENALTY_DG PENALTY_DS`: all else is 0, and the text empty, until it is set.
    pub(crate) fn begun(words: &[u8]) -> Parameters {
        let (users, rest) = split_at_first(words, b' ');
        let (positions, rest) = split_at_first(rest, b' ');
        let (entries, rest) = split_at_first(rest, b' ');
        let (quencher, rest) = split_at_first(rest, b' ');
        let (reporter, rest) = split_at_first(rest, b' ');
        let (dg, ds) = split_at_first(rest, b' ');
        let penalty = DgDs {
            dg: KcalPerMol(double_of(dg)),
            ds: KcalPerMolKelvin(double_of(ds)),
        };
        Parameters {
            text: [0; BYTES],
            strands: [0; 9 * USERS],
            scaffold: [0; 3 * POSITIONS],
            entries: [0; 8 * ENTRIES],
            energies: [0.0; 2 * ENTRIES],
            bytes: 0,
            users: size(users, USERS),
            positions: size(positions, POSITIONS),
            count: size(entries, ENTRIES),
            penalty,
            copied: copies(copied(quencher), copied(reporter)),
        }
    }

    // `LETTERS`: the text, as long as there is room for.
    fn set_text(&mut self, word: &[u8]) {
        let read = letters(word);
        self.bytes = read.len().min(BYTES);
        for (byte, letter) in self.text.iter_mut().zip(read) {
            *byte = *letter;
        }
    }

    // A line that sets the text or a number of the set, or begins a new one: `Some` where it does.
    pub(crate) fn set(&mut self, word: &[u8], words: &[u8]) -> Option<()> {
        match word {
            b"set" => {
                *self = Parameters::begun(words);
                Some(())
            }
            b"text" => {
                self.set_text(words);
                Some(())
            }
            b"side" => set_number(words, &mut self.strands),
            b"site" => set_number(words, &mut self.scaffold),
            b"entry" => set_number(words, &mut self.entries),
            b"energy" => set_double(words, &mut self.energies),
            _ => None,
        }
    }

    // The set as calls are lent it.
    pub(crate) fn lent(&self) -> LentParameters<'_> {
        LentParameters {
            text: &self.text[..self.bytes],
            users: self.users,
            strands: &self.strands[..9 * self.users],
            scaffold: &self.scaffold[..3 * self.positions],
            entries: &self.entries[..8 * self.count],
            energies: &self.energies[..2 * self.count],
            penalty: self.penalty,
            copies: self.copied,
        }
    }
}

// The table of bases, in the order of first appearance, and the numbers read off it.
ghost use Rattle.std.specs.Prelude.{◌≡◌, ℕ, [], ◌<◌, ◌≤◌, ◌+◌, ◌*◌, ◌/◌, length, map, position};
ghost use Rattle.lists.specs.Build.{up_to};
ghost use Rattle.sdc_common.specs.Lent.{names_of, glues_of};
ghost use Rattle.sdc_common.specs.inner.Fit.{FitNames};
ghost use Rattle.sdc_common.specs.inner.Table.{glue, Found};
ghost use Rattle.sdc_common.specs.Numbers.{learn, bases_of, glue_number, crowds};

use crate::MOST_STRANDS;
use crate::names::{LentName, base_of, rows};
use reply::limits::SIDES;
use std::marker::Model;

// The number of a glue that is absent, or whose base no strand has: document 01's glue 0. It is written as it stands, and an `Option` would only be
// turned back into it.
const NO_NUMBER: usize = 0;

// The most bases: one for each side of each user strand.
pub const ROOM: usize = SIDES * MOST_STRANDS;

// The bases of names, each once, in the order of their first appearance: in an array of as many as there can be, since there is no heap.
#[derive(Drop)]
pub struct BaseTable<'a> {
    pub bases: [&'a [u8]; ROOM],
    pub count: usize,
}

impl<'a> Model for BaseTable<'a> {
    ghost use Rattle.std.specs.Prelude.{List, ℕ, map, take, ◌≤◌};

    ghost Value = { List (List ℕ) };

    ghost view = { λ b. map (λ n. n.now) (take b.count b.bases) };

    ghost invariant = { λ b. b.count ≤ 183 };
}

impl<'a> BaseTable<'a> {
    // A table of no bases, for names that lie in a text.
    pub(crate) fn empty(text: &'a [u8]) -> BaseTable<'a>
        ensures { result ≡ [] }
    {
        BaseTable {
            bases: [&text[..0]; ROOM],
            count: 0,
        }
    }

    // The bases of the names, in place of its own: where `new` hands a table back, it is copied.
    pub(crate) fn refill(&mut self, text: &'a [u8], names: &[usize])
        requires fit_names { FitNames text.now names.now }
        requires names_len_bound { length names.now / 3 ≤ 183 }
        ensures { self.new ≡ bases_of (glues_of text.now (names_of names.now)) }
    {
        self.count = 0;
        for row in rows(names) {
            self.learn(LentName::from(*row).bytes(text));
        }
    }

    // The bases of the names. Text and names are two parameters here and below: as one struct, with the fact that the names are fit, each caller would
    // build it for a call or two, and the contracts would be no shorter.
    pub fn new(text: &'a [u8], names: &[usize]) -> BaseTable<'a>
        requires fit_names { FitNames text.now names.now }
        requires names_len_bound { length names.now / 3 ≤ 183 }
        ensures { result ≡ bases_of (glues_of text.now (names_of names.now)) }
    {
        let mut table = BaseTable::empty(text);
        table.refill(text, names);
        table
    }

    // The first of the names with which there are more than so many bases.
    pub fn first_beyond(most: usize, text: &'a [u8], names: &[usize]) -> Option<usize>
        requires fit_names { FitNames text.now names.now }
        requires names_len_bound { length names.now / 3 ≤ 183 }
        ensures { result ≡ position (crowds most (glues_of text.now (names_of names.now))) (up_to (length names.now / 3)) }
    {
        let mut table = BaseTable::empty(text);
        for (i, row) in rows(names).iter().enumerate() {
            let name = LentName::from(*row);
            table.learn(name.bytes(text));
            if most < table.len() {
                return Some(i);
            }
        }
        None
    }

    // How many there are.
    pub fn len(&self) -> usize
        ensures { result ≡ length self.now }
    {
        self.count
    }

    // The place of a base.
    fn find(&self, base: &[u8]) -> Option<usize>
        ensures found { Found self.now base.now result }
        ensures room { length self.now ≤ 183 }
    {
        self.bases[..self.count]
            .iter()
            .position(|known| base == *known)
    }

    // One name more: a new base comes last.
    fn learn(&mut self, name: Option<&'a [u8]>)
        requires { length self.old < 183 }
        ensures after { self.new ≡ learn self.old (glue name.entry) }
        ensures upper_bound { length self.new ≤ length self.old + 1 }
    {
        if let Some(name) = name {
            let base = base_of(name);
            if self.find(base).is_none() {
                self.bases[self.count] = base;
                self.count += 1;
            }
        }
    }

    // The number of a glue: 0 where it is absent, or its base is not in the table.
    pub fn number(&self, name: Option<&[u8]>) -> usize
        ensures value { result ≡ glue_number self.now (glue name.entry) }
        ensures upper_bound { result ≤ 2 * length self.now }
    {
        let Some(name) = name else {
            return NO_NUMBER;
        };
        let base = base_of(name);
        match self.find(base) {
            None => NO_NUMBER,
            Some(place) => 1 + 2 * place + (name.len() - base.len()) % 2,
        }
    }

    // The numbers of the names, one after the other. By place, here and below: after a `zip` of `iter_mut` nothing is known of what was written.
    pub fn fill_numbers(&self, text: &[u8], names: &[usize], numbers: &mut [usize])
        requires fit_names { FitNames text.now names.now }
        requires numbers_len { length numbers.old ≡ length names.now / 3 }
        ensures { numbers.new ≡ map (glue_number self.now) (glues_of text.now (names_of names.now)) }
    {
        for (i, row) in rows(names).iter().enumerate() {
            numbers[i] = self.number(LentName::from(*row).bytes(text));
        }
    }

    // The same into bytes, in a loop of its own: by way of words it would need a second buffer, and one loop over both kinds of cells is no plainer,
    // since the closure that makes a cell of a number needs clauses of its own, longer than either loop.
    pub(crate) fn fill_glues(&self, text: &[u8], names: &[usize], glues: &mut [u8])
        requires fit_names { FitNames text.now names.now }
        requires glues_len { length glues.old ≡ length names.now / 3 }
        requires count_bound { length self.now ≤ 31 }
        ensures { glues.new ≡ map (glue_number self.now) (glues_of text.now (names_of names.now)) }
    {
        for (i, row) in rows(names).iter().enumerate() {
            glues[i] = self.number(LentName::from(*row).bytes(text)) as u8;
        }
    }
}

// What the calls take of lists of rows. Each lent slice is filled to its end.
ghost use Rattle.std.specs.Prelude.{◌≡◌, ℕ, length};
ghost use Rattle.lists.specs.Build.{tabulate};
ghost use Rattle.sheet.specs.Parts.{is_pair, is_sequence, glue_at, first_at, bases_at, name_row, name_number_at, entry_row, entry_number_at, energy_at, potential_at, blocked_at};

use crate::amounts::potential_of;
use crate::rows::{Chosen, Group, first_of};
use statements::grammar::Kind;
use statements::words::Word;

// Whether an entry is for a pair of names.
fn is_pair(kind: Option<Kind>) -> bool
    ensures { result ≡ is_pair kind }
{
    matches!(kind, Some(Kind::PairGiven | Kind::PairSequence))
}

// Whether an entry gives a sequence.
fn is_sequence(kind: Option<Kind>) -> bool
    ensures { result ≡ is_sequence kind }
{
    matches!(kind, Some(Kind::EnergySequence | Kind::PairSequence))
}

// Each entry of a slice by a rule, which is asked by number. `jobs` and `design` have their own: theirs are asked by a word and by a strand, and to
// come back to `map` and `Grid` each would need a lemma, which is longer than a loop of one line.
fn fill<T: Copy, F: Fn(usize) -> T>(out: &mut [T], rule: F)
    requires { F.IsAlwaysCallable rule }
    ensures { (f : ℕ → T) → ((k : ℕ) (x : T) → F.post rule k x → x ≡ f k) → out.new ≡ tabulate (length out.old) f }
{
    for (k, entry) in out.iter_mut().enumerate() {
        *entry = rule(k);
    }
}

// A name as C lends it to `from_params`: the mark, the start and the size of its word. Rows are made again for each of their numbers: of what is
// written through `as_chunks_mut` the kit's contract says nothing.
fn name_row(word: Word) -> [usize; 3]
    ensures { result ≡ name_row word }
{
    [usize::from(0 < word.size), word.start, word.size]
}

impl Chosen<'_> {
    // The bases of an entry, which stand after its one or two names.
    fn bases_at(&self, m: usize) -> Word
        ensures { result ≡ bases_at self.now.rows.now self.now.places.now m }
    {
        if is_pair(self.kind(m)) {
            self.word(m, 2)
        } else {
            self.word(m, 1)
        }
    }

    // Entry m as C lends it: all that it is but its two doubles.
    fn entry_row(&self, m: usize) -> [usize; 8]
        ensures { result ≡ entry_row self.now.rows.now self.now.places.now m }
    {
        let kind = self.kind(m);
        let first = self.word(m, 0);
        let second = self.word(m, 1);
        let bases = self.bases_at(m);
        [
            first.start,
            first.size,
            usize::from(is_pair(kind)),
            second.start,
            second.size,
            usize::from(is_sequence(kind)),
            bases.start,
            bases.size,
        ]
    }

    // The potential of strand m: 0.0 of strand 0, then those of the rows, the quencher and the reporter.
    #[tactic(auto, unfolding(crate::specs::Parts::potential_at))]
    fn potential_at(&self, m: usize) -> f64
        ensures { result ≡ potential_at self.now.rows.now self.now.places.now m }
    {
        if m == 0 {
            0.0
        } else if m - 1 < self.places.len() {
            self.row(m - 1).map_or(0.0, |row| potential_of(row))
        } else if m - 1 == self.places.len() {
            first_of(self.rows, Group::Quencher).map_or(0.0, |row| potential_of(row))
        } else {
            first_of(self.rows, Group::Reporter).map_or(0.0, |row| potential_of(row))
        }
    }

    // The potentials of strand 0, the strands of the rows, the quencher and the reporter.
    pub(crate) fn potentials(&self, out: &mut [f64])
        ensures { out.new ≡ tabulate (length out.old) (potential_at self.now.rows.now self.now.places.now) }
    {
        fill(out, |m| self.potential_at(m));
    }

    // The glue names of the strands, three for each: a row of mark, start and size for each name.
    #[tactic(auto, unfolding(crate::specs::Parts::name_number_at))]
    pub(crate) fn strands(&self, names: &mut [usize])
        ensures { names.new ≡ tabulate (length names.old) (name_number_at (glue_at self.now.rows.now self.now.places.now)) }
    {
        fill(names, |k| {
            let m = k / 3;
            name_row(self.word(m / 3, 1 + m % 3))[k % 3]
        });
    }

    // The glue names of the positions, a row of mark, start and size for each.
    #[tactic(auto, unfolding(crate::specs::Parts::name_number_at))]
    pub(crate) fn positions(&self, names: &mut [usize])
        ensures { names.new ≡ tabulate (length names.old) (name_number_at (first_at self.now.rows.now self.now.places.now)) }
    {
        fill(names, |k| name_row(self.word(k / 3, 0))[k % 3]);
    }

    // The names that are shown, of positions or of strands: the first word of each row.
    pub(crate) fn shown(&self, names: &mut [Word])
        ensures { names.new ≡ tabulate (length names.old) (first_at self.now.rows.now self.now.places.now) }
    {
        fill(names, |m| self.word(m, 0));
    }

    // A mark for each position: 1 where it is blocked.
    pub(crate) fn blocks(&self, marks: &mut [u8])
        ensures { marks.new ≡ tabulate (length marks.old) (blocked_at self.now.rows.now self.now.places.now) }
    {
        fill(marks, |m| {
            u8::from(matches!(self.kind(m), Some(Kind::Blocked)))
        });
    }

    // The entries, a row of eight for each: start and size of the first name; mark, start and size of the second, which is there where the entry
    // is for a pair; the form, and start and size of the bases.
    #[tactic(auto, unfolding(crate::specs::Parts::entry_number_at))]
    pub(crate) fn entries(&self, out: &mut [usize])
        ensures { out.new ≡ tabulate (length out.old) (entry_number_at self.now.rows.now self.now.places.now) }
    {
        fill(out, |k| self.entry_row(k / 8)[k % 8]);
    }

    // The energies of the entries, a row of dG and dS for each.
    pub(crate) fn energies(&self, out: &mut [f64])
        ensures { out.new ≡ tabulate (length out.old) (energy_at self.now.rows.now self.now.places.now) }
    {
        fill(out, |k| self.number(k / 2, k % 2));
    }
}

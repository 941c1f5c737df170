// Energy entries: read off their rows, as two doubles or a sequence, and taken apart.
ghost use Rattle.std.specs.Prelude.{◌≡◌, ℕ, Bool, ◌+◌, ◌*◌, ◌||◌, ◌<◌, length, get_or, position};
ghost use Rattle.sdc_common.specs.Lent.{unfit_name, unfit_glue};
ghost use Rattle.lists.specs.Find.{any};
ghost use Rattle.sdc1d_params.specs.Entries.{energy_of, bad_form, unfit_energy, unfit_entry, entry_at, entry_rows, unfit_entries};
ghost use Rattle.sdc1d_params.specs.inner.Cells.{first_of};
ghost use Rattle.sdc1d_params.specs.Params.{params_lent};
ghost use Rattle.sdc1d_params.specs.declared.Entry.{Entry};

use crate::{Entry, LentParameters, MOST_ENTRIES};
use sdc_common::names::{LentName, PRESENT, Part, unfit_glue};
use utils::LONGEST;

// The numbers of an entry's row.
pub(crate) const ROW: usize = 8;

// An entry's energy is lent as two doubles.
const GIVEN: usize = 0;

// An entry's energy is lent as a sequence.
const SEQUENCE: usize = 1;

// An entry's energy: two doubles, or a sequence in the text.
#[derive(Clone, Copy)]
pub(crate) enum GsOrSeq {
    Given(f64, f64),
    Sequence(Part),
}

// A part of the text by two numbers of a row, its start and its length.
fn part_at(entries: &[usize], at: usize) -> Part
    requires { at + 1 < length entries.now }
    ensures { (result.start ≡ get_or entries.now at 0) × (result.size ≡ get_or entries.now (at + 1) 0) }
{
    Part {
        start: entries[at],
        size: entries[at + 1],
    }
}

// Entry i, out of its row of eight numbers and its two doubles.
pub(crate) fn entry_at(entries: &[usize], energies: &[f64], i: usize) -> Entry
    requires { (i < entry_rows entries.now) × (length energies.now ≡ 2 * entry_rows entries.now) }
    ensures { result ≡ entry_at entries.now energies.now i }
{
    let row = ROW * i;
    Entry {
        first: part_at(entries, row),
        second: LentName {
            mark: entries[row + 2],
            part: part_at(entries, row + 3),
        },
        form: entries[row + 5],
        sequence: part_at(entries, row + 6),
        dg: energies[2 * i],
        ds: energies[2 * i + 1],
    }
}

// An entry's first name, which is always there.
pub(crate) fn first_name(entry: Entry) -> LentName
    ensures { result ≡ first_of entry }
{
    LentName {
        mark: PRESENT,
        part: entry.first,
    }
}

// An entry's energy.
pub(crate) fn gs_or_seq(entry: Entry) -> GsOrSeq
    ensures { result ≡ energy_of entry }
{
    if entry.form == GIVEN {
        return GsOrSeq::Given(entry.dg, entry.ds);
    }
    GsOrSeq::Sequence(entry.sequence)
}

// Whether a form has neither value.
fn bad_form(form: usize) -> bool
    ensures { result ≡ bad_form form }
{
    form != GIVEN && form != SEQUENCE
}

// Whether an entry's sequence is too long or leaves the text.
fn unfit_energy(text: &[u8], energy: GsOrSeq) -> bool
    ensures { result ≡ unfit_energy text.now energy }
{
    match energy {
        GsOrSeq::Given(_, _) => false,
        GsOrSeq::Sequence(part) => { part.leaves(text) || LONGEST < part.size }
    }
}

// Whether a name of an entry is unfit. The first is always there. Two tests in a function, here and below: the check finds those alone, and of more in
// one `||` it leaves the later ones to a proof.
fn unfit_pair(text: &[u8], entry: Entry) -> bool
    ensures { result ≡ (unfit_name text.now entry.first.start entry.first.size || unfit_glue text.now entry.second) }
{
    entry.first.is_unfit_name(text) || unfit_glue(text, entry.second)
}

// Whether the form or the sequence of an entry is unfit.
fn unfit_form(text: &[u8], entry: Entry) -> bool
    ensures { result ≡ (bad_form entry.form || unfit_energy text.now (energy_of entry)) }
{
    bad_form(entry.form) || unfit_energy(text, gs_or_seq(entry))
}

// Whether a name, the form or the sequence of an entry is unfit.
fn unfit_entry(text: &[u8], entry: Entry) -> bool
    ensures { result ≡ unfit_entry text.now entry }
{
    unfit_pair(text, entry) || unfit_form(text, entry)
}

// The first entry that passes a test. A loop over numbers: `entry_at` makes single entries too, so that a `map` to entries before `position` would
// bring a second maker of entries beside it, and `find` over the numbers a closure around the test, with clauses that repeat these.
pub(crate) fn first_entry<F: Fn(Entry) -> bool>(lent: &LentParameters, test: F) -> Option<usize>
    requires two_each { length lent.now.energies.now ≡ 2 * entry_rows lent.now.entries.now }
    requires callable { (i : ℕ) → i < entry_rows lent.now.entries.now → F.pre test (entry_at lent.now.entries.now lent.now.energies.now i) }
    ensures { (p : Entry → Bool) → ((i : ℕ) (b : Bool) → i < entry_rows lent.now.entries.now → F.post test (entry_at lent.now.entries.now lent.now.energies.now i) b → b ≡ p (entry_at lent.now.entries.now lent.now.energies.now i)) → result ≡ position p (params_lent lent.now).entries.each }
{
    for i in 0..lent.entries.len() / ROW {
        if test(entry_at(lent.entries, lent.energies, i)) {
            return Some(i);
        }
    }
    None
}

// Whether the rows are not whole, the doubles not two for each, the entries too many, or one unfit.
pub(crate) fn unfit_entries(lent: &LentParameters) -> bool
    ensures { result ≡ unfit_entries lent.now.text.now (params_lent lent.now).entries }
{
    let entries = lent.entries.len();
    let energies = lent.energies.len();
    let n = entries / ROW;
    if entries % ROW != 0 || energies != 2 * n || MOST_ENTRIES < n {
        return true;
    }
    first_entry(lent, |entry| unfit_entry(lent.text, entry)).is_some()
}

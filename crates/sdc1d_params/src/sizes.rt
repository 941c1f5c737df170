// Whether what is lent is as long as it should be, and what it names is there.
ghost use Rattle.std.specs.Prelude.{◌≡◌, ◌||◌, ◌≤◌, length};
ghost use Rattle.sdc_common.specs.Lent.{names_of, unfit_names};
ghost use Rattle.sdc_common.specs.Calls.{unfit_strands};
ghost use Rattle.sdc1d_params.specs.Params.{unfit_copied, unfit_lengths, unfit_lent, wrong_size};
ghost use Rattle.sdc1d_params.specs.inner.Set.{set_of, as_lent};

use crate::Copies;
use crate::set::ParameterSet;
use reply::limits::CELLS;
use sdc_common::names::unfit_names;
use sdc_common::unfit_strands;

// What is lent to be written: the glues of the strands and of the scaffold, and both tables.
#[derive(Clone, Copy)]
pub(crate) struct Lent<'a> {
    pub(crate) strand_glues: &'a [u8],
    pub(crate) scaffold_glues: &'a [u8],
    pub(crate) dg: &'a [f64],
    pub(crate) ds: &'a [f64],
}

// Whether a strand that is copied is no user strand.
fn unfit_copied(users: usize, copied: Option<usize>) -> bool
    ensures { result ≡ unfit_copied users copied }
{
    copied.is_some_and(|k| k == 0 || users < k)
}

// Whether the lent glues and tables have other lengths than what is written.
fn unfit_lengths(users: usize, glues: usize, dg: usize, ds: usize) -> bool
    requires { users ≤ 61 }
    ensures { result ≡ unfit_lengths users glues dg ds }
{
    glues != 3 * (users + 3) || dg != CELLS || ds != CELLS
}

// Whether names of the strands or of the scaffold are not as they should be. Two tests in a function, here and below: the check finds those alone, and
// of more in one `||` it leaves the later ones to a proof.
fn unfit_lists(set: &ParameterSet, lent: &Lent) -> bool
    ensures { result ≡ (unfit_strands set.now.lent.users set.now.lent.text.now (names_of set.now.lent.strands.now) || unfit_names (length lent.now.scaffold_glues.now) set.now.lent.text.now (names_of set.now.lent.scaffold.now)) }
{
    unfit_strands(set.lent.text, set.lent.users, set.lent.strands)
        || unfit_names(lent.scaffold_glues.len(), set.lent.text, set.lent.scaffold)
}

// Whether the quencher or the reporter is no user strand.
fn unfit_copies(users: usize, copies: Copies) -> bool
    ensures { result ≡ (unfit_copied users copies.quencher || unfit_copied users copies.reporter) }
{
    unfit_copied(users, copies.quencher) || unfit_copied(users, copies.reporter)
}

// Whether a strand that is copied is no user's, or a lent slice is not as long as what is written.
fn unfit_output(set: &ParameterSet, lent: &Lent) -> bool
    requires { set.now.lent.users ≤ 61 }
    ensures { result ≡ (unfit_copied set.now.lent.users set.now.lent.copies.quencher || unfit_copied set.now.lent.users set.now.lent.copies.reporter || unfit_lent (set_of set.now) (as_lent lent.now)) }
{
    let glues = lent.strand_glues.len();
    unfit_copies(set.lent.users, set.lent.copies)
        || unfit_lengths(set.lent.users, glues, lent.dg.len(), lent.ds.len())
}

// Whether something is outside its limits, or not as long as it should be. The entries of a set were looked at before.
pub(crate) fn wrong_size(set: &ParameterSet, lent: &Lent) -> bool
    requires { length lent.now.scaffold_glues.now ≤ 128 }
    ensures { result ≡ wrong_size (set_of set.now) (as_lent lent.now) }
{
    unfit_lists(set, lent) || unfit_output(set, lent)
}

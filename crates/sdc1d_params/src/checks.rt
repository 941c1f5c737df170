// The checks of `from_params`, before anything is written.
ghost use Rattle.std.specs.Prelude.{◌≡◌, ◌≤◌, length, Ok};
ghost use Rattle.reply.specs.First.{first_of};
ghost use Rattle.sdc1d_params.specs.Entries.{entry_rows};
ghost use Rattle.sdc1d_params.specs.inner.Set.{set_of, as_lent};
ghost use Rattle.sdc1d_params.specs.Params.{param_checks};
ghost use Rattle.sdc1d_params.specs.Places.{placed};
ghost use Rattle.sdc1d_params.specs.inner.Checked.{Checked};
ghost use Rattle.sdc1d_params.specs.inner.Placed.{refused_where};

use crate::cells::{Cell, fill_cells, first_repeated};
use crate::fit::{first_bad_base, first_short};
use crate::scaffold::first_unknown;
use crate::set::ParameterSet;
use crate::sizes::{Lent, wrong_size};
use crate::strands::crowding_strand;
use crate::tables::first_out;
use reply::{Refusal, Refused, refused_if};
use sdc_common::MOST_BASES;
use sdc_common::table::BaseTable;

// A refusal where its fault has a place.
fn refused_where(refusal: Refusal, place: Option<usize>) -> Result<(), Refused>
    ensures { result ≡ refused_where refusal place }
{
    match place {
        Some(_) => Err(Refused { refusal, place }),
        None => Ok(()),
    }
}

// The first check that holds, and where. Where none does, the numbers of the scaffold's names and the cells of the entries are left for the writing.
pub(crate) fn check(
    set: &ParameterSet,
    lent: &Lent,
    numbers: &mut [usize],
    cells: &mut [Cell],
) -> Result<(), Refused>
    requires scaffold_glues_len_bound { (length lent.now.scaffold_glues.now ≤ 128) × (length numbers.old ≡ length lent.now.scaffold_glues.now) }
    requires cells_len { length cells.old ≡ entry_rows set.now.lent.entries.now }
    ensures value { result ≡ placed (set_of set.now) (first_of (param_checks (set_of set.now) (as_lent lent.now))) }
    ensures checked { result ≡ Ok tt → Checked (set_of set.now) set.now.lent.entries.now set.now.lent.energies.now numbers.new cells.new }
{
    refused_if(Refusal::WrongSize, wrong_size(set, lent))?;
    refused_where(Refusal::NotABase, first_bad_base(set))?;
    refused_where(Refusal::TooShort, first_short(set))?;
    let bases = BaseTable::new(set.lent.text, set.lent.strands);
    bases.fill_numbers(set.lent.text, set.lent.scaffold, numbers);
    let unknown = first_unknown(set.lent.text, set.lent.scaffold, numbers);
    refused_where(Refusal::UnknownName, unknown)?;
    if MOST_BASES < bases.len() {
        return Err(Refused {
            refusal: Refusal::TooManyGlues,
            place: crowding_strand(set),
        });
    }
    fill_cells(set, &bases, cells);
    refused_where(Refusal::DuplicatePair, first_repeated(cells))?;
    refused_where(Refusal::OutOfRange, first_out(set, cells))
}

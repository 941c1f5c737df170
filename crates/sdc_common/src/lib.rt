// Names of glues, as sdc_common.rs reads them, and their numbers.
#![tactic(auto)]

pub mod names;
pub mod retired;
pub mod table;

ghost use Rattle.std.specs.Prelude.{◌≡◌, length};
ghost use Rattle.sdc_common.specs.Lent.{names_of};
ghost use Rattle.sdc_common.specs.Calls.{name_figures, self_and_inverse, unfit_strands, numbers_figures, name_numbers, numbers_after, result_number, strand_glues, glues_after};

use names::{Part, stars_of, unfit_names};
use reply::{Refusal, refused_if};
use table::BaseTable;

// The most user strands of a build.
pub const MOST_STRANDS: usize = 61;

// The most base names that the glue tables have numbers for.
pub const MOST_BASES: usize = 31;

// A name's base as a part of the text, and whether the name stands for the base or for base*.
#[derive(Clone, Copy, PartialEq, Eq, Debug, Default)]
pub struct NameBase {
    pub part: Part,
    pub is_base: bool,
}

// The base of a name.
pub fn self_and_inverse(text: &[u8], name: Part) -> Result<NameBase, Refusal>
    ensures { name_figures result ≡ self_and_inverse text.now name.start name.size }
{
    refused_if(Refusal::WrongSize, name.is_unfit_name(text))?;
    let stars = stars_of(name.bytes(text));
    Ok(NameBase {
        part: Part {
            start: name.start,
            size: name.size - stars,
        },
        is_base: stars % 2 == 0,
    })
}

// Whether the strands' names are not as they should be: three for each user strand.
pub fn unfit_strands(text: &[u8], users: usize, strands: &[usize]) -> bool
    ensures { result ≡ unfit_strands users text.now (names_of strands.now) }
{
    MOST_STRANDS < users || unfit_names(3 * users, text, strands)
}

// The numbers of names among those of the strands' glues, reduced to base or base*: 0 for one that is absent or not known. Gives how many
// base names the strands use.
pub fn name_numbers(
    text: &[u8],
    users: usize,
    strands: &[usize],
    names: &[usize],
    numbers: &mut [usize],
) -> Result<usize, Refusal>
    ensures result_value { numbers_figures result ≡ name_numbers users text.now (names_of strands.now) (names_of names.now) (length numbers.old) }
    ensures numbers_after { numbers.new ≡ numbers_after users text.now (names_of strands.now) (names_of names.now) numbers.old }
{
    refused_if(Refusal::WrongSize, unfit_strands(text, users, strands))?;
    refused_if(Refusal::WrongSize, unfit_names(numbers.len(), text, names))?;
    let mut bases = BaseTable::empty(text);
    bases.refill(text, strands);
    bases.fill_numbers(text, names, numbers);
    Ok(bases.len())
}

// The numbers of all strand glues: of each strand west, bottom, east.
pub fn strand_glues(
    text: &[u8],
    users: usize,
    strands: &[usize],
    glues: &mut [u8],
) -> Result<(), Refusal>
    ensures result_value { result_number result ≡ strand_glues users text.now (names_of strands.now) (length glues.old) }
    ensures glues_after { glues.new ≡ glues_after users text.now (names_of strands.now) glues.old }
{
    refused_if(Refusal::WrongSize, unfit_strands(text, users, strands))?;
    refused_if(Refusal::WrongSize, glues.len() != 3 * users)?;
    let mut bases = BaseTable::empty(text);
    bases.refill(text, strands);
    refused_if(Refusal::TooManyGlues, MOST_BASES < bases.len())?;
    bases.fill_glues(text, strands, glues);
    Ok(())
}

// Glue tables from names and energies, as `from_params` of sdc1d.rs builds them.
#![tactic(auto)]

mod building;
mod cells;
mod checks;
mod entries;
mod fit;
mod retired;
mod scaffold;
mod set;
mod sizes;
mod strands;
mod tables;

ghost use Rattle.std.specs.Prelude.{◌≡◌};
ghost use Rattle.sdc_common.specs.Calls.{result_number};
ghost use Rattle.reply.specs.Number.{reply_number};
ghost use Rattle.sdc1d_params.specs.Params.{params_lent, lent_of, outcome_of, from_params};
ghost use Rattle.sdc1d_params.specs.Places.{build_reply};

use building::build_all;
use entries::unfit_entries;
use reply::limits::POSITIONS;
use reply::{Refusal, Refused, refused_if};
use sdc_common::names::{LentName, Part};
use set::ParameterSet;
use utils::DgDs;

// The most energy entries.
pub const MOST_ENTRIES: usize = 1024;

// Which names are taken: an ordinary build refuses strand and entry names that end in two or more stars, the archive's takes old designs.
#[derive(Clone, Copy)]
pub enum Build {
    Ordinary,
    Archive,
}

// Whose glues the quencher and the reporter copy: no strand's, or those of a user strand, which are numbered from 1.
#[derive(Clone, Copy)]
pub struct Copies {
    pub quencher: Option<usize>,
    pub reporter: Option<usize>,
}

// An energy entry as it is lent: its first name, its second where it is for a pair, and its energy in one of two forms. The form is a number of
// the C interface, which may have neither value.
#[derive(Clone, Copy)]
pub struct Entry {
    pub first: Part,
    pub second: LentName,
    pub form: usize,
    pub sequence: Part,
    pub dg: f64,
    pub ds: f64,
}

// What `from_params` reads, as it is lent: names and entries are rows of numbers, the form in which C lends them. A name is a row of three: its mark,
// its start and its length. An entry is a row of eight, start and length of its first name, mark, start and length of its second, its form, and
// start and length of its sequence, and a row of two doubles, dG and dS.
#[derive(Clone, Copy)]
pub struct LentParameters<'a> {
    // The bytes of all names and sequences.
    pub text: &'a [u8],
    // How many user strands there are.
    pub users: usize,
    // Three names for each of them: west, bottom, east.
    pub strands: &'a [usize],
    // A name for each position.
    pub scaffold: &'a [usize],
    pub entries: &'a [usize],
    pub energies: &'a [f64],
    // The junction penalty, which is added to both numbers of every entry.
    pub penalty: DgDs,
    pub copies: Copies,
}

// The same build as `from_params`, which of a refusal that has one also says the place: the entry, the position or the strand, from 0.
pub fn from_params_with_place(
    build: Build,
    parameters: &LentParameters<'_>,
    strand_glues: &mut [u8],
    scaffold_glues: &mut [u8],
    dg: &mut [f64],
    ds: &mut [f64],
) -> Result<(), Refused>
    ensures reply { result ≡ build_reply build (params_lent parameters.now) (lent_of strand_glues.old scaffold_glues.old dg.old ds.old) }
    ensures written { outcome_of (reply_number result) strand_glues.new scaffold_glues.new dg.new ds.new ≡ from_params build (params_lent parameters.now) (lent_of strand_glues.old scaffold_glues.old dg.old ds.old) }
{
    let lent = *parameters;
    refused_if(Refusal::WrongSize, unfit_entries(parameters))?;
    refused_if(Refusal::WrongSize, POSITIONS < scaffold_glues.len())?;
    let set = ParameterSet { lent };
    build_all(build, &set, strand_glues, scaffold_glues, dg, ds)
}

// The glues of the strands and of the scaffold, and the two glue tables, into the lent slices.
pub fn from_params(
    build: Build,
    parameters: &LentParameters<'_>,
    strand_glues: &mut [u8],
    scaffold_glues: &mut [u8],
    dg: &mut [f64],
    ds: &mut [f64],
) -> Result<(), Refusal>
    ensures { outcome_of (result_number result) strand_glues.new scaffold_glues.new dg.new ds.new ≡ from_params build (params_lent parameters.now) (lent_of strand_glues.old scaffold_glues.old dg.old ds.old) }
{
    match from_params_with_place(build, parameters, strand_glues, scaffold_glues, dg, ds) {
        Ok(()) => Ok(()),
        Err(refused) => Err(refused.refusal),
    }
}

// The conditions on which a design is refused.
ghost use Rattle.std.specs.Prelude.{◌≡◌, cond, Some, None, [], ◌∷◌, ◌≤◌, ltb, length, position, find, false, OnOk, ◌<◌};
ghost use Rattle.std.specs.Float.Ieee.{neg};
ghost use Rattle.lists.specs.Build.{up_to};
ghost use Rattle.lists.specs.Find.{any};
ghost use Rattle.reply.specs.First.{first_of, ◌if◌at◌};
ghost use Rattle.reply.specs.declared.Refusal.TheVariants.{OutOfRange, AmbientOut};
ghost use Rattle.design.specs.Design.{positions, strands};
ghost use Rattle.design.specs.Places.{potential_out};
ghost use Rattle.design.specs.Checks.{sizes_out, outside, cells_out, bad_cell, ambient_out, bad_ambient, null_cells, null_binds, ranged_checks, range_checks, dilute, TablesPass, Admitted};
ghost use Rattle.design.specs.Unread.{PotentialsOf};

use super::Design;
use super::friends::BLOCKED;
use super::ranges::some_beyond;
use super::reads::number_at;
use reply::limits::{
    CELLS, DG, DS, EXCESS, LAST_GLUE, LEAST_RT, MOST_RT, POSITIONS, POTENTIAL, SIDES, STRANDS,
};
use reply::{Refusal, Refused, refused_at, refused_if};
use units::Ambient;

// Whether a number is above the most that it may be. All are looked at: so a turn has no way out to test, as by `any` it would have, and no count to
// keep, and the compiler takes sixteen at once.
fn some_above(most: u8, numbers: &[u8]) -> bool
    ensures { result ≡ any (ltb most) numbers.now }
{
    numbers
        .iter()
        .fold(false, |above, &number| above | (most < number))
}

// Whether a count, a length, a mark or a glue is outside its limits.
#[tactic(auto, unfolding(crate::specs::Checks::wrong_sizes))]
fn wrong_sizes(design: &Design) -> bool
    ensures { result ≡ sizes_out design.now }
{
    POSITIONS < design.scaffold.len()
        || design.amounts.len() < 1
        || STRANDS < design.amounts.len()
        || design.glues.len() != SIDES * design.amounts.len()
        || design.dg.len() != CELLS
        || design.ds.len() != CELLS
        || design.marks.len() != design.scaffold.len()
        || some_above(BLOCKED, design.marks)
        || some_above(LAST_GLUE, design.scaffold)
        || some_above(LAST_GLUE, design.glues)
}

// Whether a cell of either table is out of its range.
fn cells_out(design: &Design) -> bool
    ensures { result ≡ cells_out design.now.dg design.now.ds }
{
    some_beyond(DG, design.dg) || some_beyond(DS, design.ds)
}

// Where the first number beyond ±most stands.
fn first_beyond(most: f64, numbers: &[f64]) -> Option<usize>
    ensures { result ≡ position (outside (neg most) most) numbers.now }
{
    numbers
        .iter()
        .position(|number| !doubles::in_range(-most, most, *number))
}

// The lowest cell that is out of its range, dS's counted on from dG's.
fn bad_cell(design: &Design) -> Option<usize>
    requires dg_len { length design.now.dg ≡ 4096 }
    requires ds_len { length design.now.ds ≡ 4096 }
    ensures { result ≡ cond (cells_out design.now.dg design.now.ds) (Some (bad_cell design.now.dg design.now.ds)) None }
{
    first_beyond(DG, design.dg).or_else(|| Some(CELLS + first_beyond(DS, design.ds)?))
}

// Whether a cell is out of its range, and which: it is looked for only where one is.
fn cells_reply(design: &Design) -> Result<(), Refused>
    requires dg_len { length design.now.dg ≡ 4096 }
    requires ds_len { length design.now.ds ≡ 4096 }
    ensures { result ≡ first_of (OutOfRange if cells_out design.now.dg design.now.ds at bad_cell design.now.dg design.now.ds ∷ []) }
{
    if cells_out(design) {
        return Err(Refused {
            refusal: Refusal::OutOfRange,
            place: bad_cell(design),
        });
    }
    Ok(())
}

// Whether RT or an excess is out of its range, and which.
fn ambient_reply(ambient: Ambient) -> Result<(), Refused>
    ensures { result ≡ first_of (AmbientOut if ambient_out ambient at bad_ambient ambient ∷ []) }
{
    let rt_in = doubles::in_range(LEAST_RT, MOST_RT, ambient.rt.0);
    refused_at(Refusal::AmbientOut, !rt_in, 0)?;
    let strand_in = doubles::in_range(-EXCESS, EXCESS, ambient.strand_excess.0);
    refused_at(Refusal::AmbientOut, !strand_in, 1)?;
    let scaffold_in = doubles::in_range(-EXCESS, EXCESS, ambient.scaffold_excess.0);
    refused_at(Refusal::AmbientOut, !scaffold_in, 2)
}

// Whether a strand is somewhere a friend and its potential out of range.
fn is_unfit(design: &Design, potentials: &[f64], strand: u8) -> bool
    requires known { strand < strands design.now }
    requires own { PotentialsOf design.now potentials.now }
    ensures { result ≡ potential_out design.now strand }
{
    let potential = number_at(potentials, usize::from(strand));
    !doubles::in_range(-POTENTIAL, POTENTIAL, potential) && design.is_friend_somewhere(strand)
}

// The first such strand.
fn first_unfit(design: &Design, potentials: &[f64]) -> Option<u8>
    requires few { strands design.now ≤ 64 }
    requires own { PotentialsOf design.now potentials.now }
    ensures { result ≡ find (potential_out design.now) (up_to (strands design.now)) }
{
    (0..design.strands() as u8).find(|strand| is_unfit(design, potentials, *strand))
}

// Whether row or column 0 of a glue table has a nonzero cell.
fn null_cells(design: &Design) -> bool
    ensures { result ≡ any (null_cells design.now.dg design.now.ds) (up_to 64) }
{
    (0..LAST_GLUE + 1).any(|glue| design.binds(0, glue) || design.binds(glue, 0))
}

// Whether strand 0 has a glue, or row or column 0 a nonzero cell.
#[tactic(auto, unfolding(crate::specs::Checks::null_binds))]
fn null_binds(design: &Design) -> bool
    ensures { result ≡ null_binds design.now.glues design.now.dg design.now.ds }
{
    design.west_glue(0) != 0
        || design.bottom_glue(0) != 0
        || design.east_glue(0) != 0
        || null_cells(design)
}

// The first of the checks of a design's tables that holds: their sizes, with what the call itself finds wrong with one, their cells, what else the
// call finds out of range, and null.
pub fn ranged_reply(own_size: bool, own_range: bool, design: &Design) -> Result<(), Refused>
    ensures value { result ≡ first_of (ranged_checks own_size own_range design.now.scaffold design.now.marks design.now.glues design.now.dg design.now.ds design.now.amounts) }
    ensures own { OnOk result (own_size ≡ false) }
    ensures tables { OnOk result (TablesPass design.now) }
    ensures short { OnOk result (positions design.now ≤ 128) }
    ensures some { OnOk result (0 < strands design.now) }
    ensures few { OnOk result (strands design.now ≤ 64) }
{
    refused_if(Refusal::WrongSize, own_size || wrong_sizes(design))?;
    cells_reply(design)?;
    refused_if(Refusal::OutOfRange, own_range)?;
    refused_if(Refusal::NullBinds, null_binds(design))?;
    Ok(())
}

// The first of the checks of a design's ranges that holds: its ambient, and the potentials that are read. The concentrations that are read have been looked
// at, as they have logarithms.
pub fn ranges_reply(design: &Design, potentials: &[f64]) -> Result<(), Refused>
    requires few { strands design.now ≤ 64 }
    requires own { PotentialsOf design.now potentials.now }
    ensures value { result ≡ first_of (range_checks design.now) }
    ensures admitted { TablesPass design.now → dilute design.now ≡ false → OnOk result (Admitted design.now) }
{
    ambient_reply(design.ambient)?;
    match first_unfit(design, potentials) {
        Some(strand) => Err(Refused {
            refusal: Refusal::PotentialOut,
            place: Some(usize::from(strand)),
        }),
        None => Ok(()),
    }
}

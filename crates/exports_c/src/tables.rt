// Tables of bonds beside a design, and the calls over them, as C functions. The two tables are lent after the ambient.
// Design and tables are lent part by part: C has no structs of slices.

ghost use Rattle.std.specs.Prelude.{◌≡◌};
ghost use Rattle.doubles.specs.Decimal.{zero};
ghost use Rattle.bond_tables.specs.Answers.{fill_answer, filled_strands, filled_scaffold, energy_over_answer, count_over_answer, rank_over_answer, rank_over_entries, search_over_answer, search_over_entries};
ghost use Rattle.exports.specs.Lent.{amounts_numbered, lent_at, answer_in, left_in, SaidIn};
ghost use Rattle.exports.specs.Tables.{LowestToldOver};
ghost use Rattle.exports.specs.Told.{Told};

use bond_tables::BondTables;
use design::Design;
use exports::designs::ambient;
use exports::lent::{amounts_of, tell_unnamed};

// Fills both tables with the bonds of a design.
#[unsafe(no_mangle)]
pub extern "C" fn mj_bond_tables(
    scaffold: &[u8],
    marks: &[u8],
    glues: &[u8],
    dg: &[f64],
    ds: &[f64],
    amounts: &[f64],
    given: u32,
    rt: f64,
    strand_excess: f64,
    scaffold_excess: f64,
    strand_bonds: &mut [f64],
    scaffold_bonds: &mut [f64],
    place: &mut u64,
) -> u32
    ensures told { Told (answer_in (lent_at scaffold.entry marks.entry glues.entry dg.entry ds.entry amounts.entry (amounts_numbered given) rt strand_excess scaffold_excess) tt (λ d. fill_answer d strand_bonds.old scaffold_bonds.old)) result place.new tt }
    ensures strand_bonds_after { strand_bonds.new ≡ left_in (lent_at scaffold.entry marks.entry glues.entry dg.entry ds.entry amounts.entry (amounts_numbered given) rt strand_excess scaffold_excess) strand_bonds.old (λ d. filled_strands d strand_bonds.old scaffold_bonds.old) }
    ensures scaffold_bonds_after { scaffold_bonds.new ≡ left_in (lent_at scaffold.entry marks.entry glues.entry dg.entry ds.entry amounts.entry (amounts_numbered given) rt strand_excess scaffold_excess) scaffold_bonds.old (λ d. filled_scaffold d strand_bonds.old scaffold_bonds.old) }
{
    let Some(given) = amounts_of(given) else {
        return tell_unnamed((), place, &mut ());
    };
    let design = Design {
        scaffold,
        marks,
        glues,
        dg,
        ds,
        amounts,
        given,
        ambient: ambient(rt, strand_excess, scaffold_excess),
    };
    exports::tables::mj_bond_tables(&design, strand_bonds, scaffold_bonds, place)
}

// The state energy of a configuration over lent bonds.
#[unsafe(no_mangle)]
pub extern "C" fn mj_state_energy_over(
    scaffold: &[u8],
    marks: &[u8],
    glues: &[u8],
    dg: &[f64],
    ds: &[f64],
    amounts: &[f64],
    given: u32,
    rt: f64,
    strand_excess: f64,
    scaffold_excess: f64,
    strand_bonds: &[f64],
    scaffold_bonds: &[f64],
    configuration: &[u8],
    place: &mut u64,
    energy: &mut f64,
) -> u32
    ensures { Told (answer_in (lent_at scaffold.entry marks.entry glues.entry dg.entry ds.entry amounts.entry (amounts_numbered given) rt strand_excess scaffold_excess) zero (λ d. energy_over_answer d strand_bonds.now scaffold_bonds.now configuration.now)) result place.new energy.new }
{
    let Some(given) = amounts_of(given) else {
        return tell_unnamed(0.0, place, energy);
    };
    let design = Design {
        scaffold,
        marks,
        glues,
        dg,
        ds,
        amounts,
        given,
        ambient: ambient(rt, strand_excess, scaffold_excess),
    };
    let tables = BondTables {
        strand_bonds,
        scaffold_bonds,
    };
    exports::tables::mj_state_energy_over(&design, &tables, configuration, place, energy)
}

// How many states there are.
#[unsafe(no_mangle)]
pub extern "C" fn mj_states_over(
    scaffold: &[u8],
    marks: &[u8],
    glues: &[u8],
    dg: &[f64],
    ds: &[f64],
    amounts: &[f64],
    given: u32,
    rt: f64,
    strand_excess: f64,
    scaffold_excess: f64,
    strand_bonds: &[f64],
    scaffold_bonds: &[f64],
    place: &mut u64,
    count: &mut u64,
) -> u32
    ensures { Told (answer_in (lent_at scaffold.entry marks.entry glues.entry dg.entry ds.entry amounts.entry (amounts_numbered given) rt strand_excess scaffold_excess) 0 (λ d. count_over_answer d strand_bonds.now scaffold_bonds.now)) result place.new count.new }
{
    let Some(given) = amounts_of(given) else {
        return tell_unnamed(0, place, count);
    };
    let design = Design {
        scaffold,
        marks,
        glues,
        dg,
        ds,
        amounts,
        given,
        ambient: ambient(rt, strand_excess, scaffold_excess),
    };
    let tables = BondTables {
        strand_bonds,
        scaffold_bonds,
    };
    exports::tables::mj_states_over(&design, &tables, place, count)
}

// The state at a rank, into one lent entry for each position.
#[unsafe(no_mangle)]
pub extern "C" fn mj_state_over(
    scaffold: &[u8],
    marks: &[u8],
    glues: &[u8],
    dg: &[f64],
    ds: &[f64],
    amounts: &[f64],
    given: u32,
    rt: f64,
    strand_excess: f64,
    scaffold_excess: f64,
    strand_bonds: &[f64],
    scaffold_bonds: &[f64],
    rank: u64,
    entries: &mut [u8],
    place: &mut u64,
) -> u32
    ensures told { Told (answer_in (lent_at scaffold.entry marks.entry glues.entry dg.entry ds.entry amounts.entry (amounts_numbered given) rt strand_excess scaffold_excess) tt (λ d. rank_over_answer d strand_bonds.now scaffold_bonds.now rank entries.old)) result place.new tt }
    ensures entries_after { entries.new ≡ left_in (lent_at scaffold.entry marks.entry glues.entry dg.entry ds.entry amounts.entry (amounts_numbered given) rt strand_excess scaffold_excess) entries.old (λ d. rank_over_entries d strand_bonds.now scaffold_bonds.now rank entries.old) }
{
    let Some(given) = amounts_of(given) else {
        return tell_unnamed((), place, &mut ());
    };
    let design = Design {
        scaffold,
        marks,
        glues,
        dg,
        ds,
        amounts,
        given,
        ambient: ambient(rt, strand_excess, scaffold_excess),
    };
    let tables = BondTables {
        strand_bonds,
        scaffold_bonds,
    };
    exports::tables::mj_state_over(&design, &tables, rank, entries, place)
}

// The lowest configuration over lent bonds, into one lent entry for each position, and its energy.
#[unsafe(no_mangle)]
pub extern "C" fn mj_search_over(
    scaffold: &[u8],
    marks: &[u8],
    glues: &[u8],
    dg: &[f64],
    ds: &[f64],
    amounts: &[f64],
    given: u32,
    rt: f64,
    strand_excess: f64,
    scaffold_excess: f64,
    strand_bonds: &[f64],
    scaffold_bonds: &[f64],
    configuration: &mut [u8],
    place: &mut u64,
    energy: &mut f64,
) -> u32
    ensures told { Told (answer_in (lent_at scaffold.entry marks.entry glues.entry dg.entry ds.entry amounts.entry (amounts_numbered given) rt strand_excess scaffold_excess) zero (λ d. search_over_answer d strand_bonds.now scaffold_bonds.now configuration.old)) result place.new energy.new }
    ensures configuration_after { configuration.new ≡ left_in (lent_at scaffold.entry marks.entry glues.entry dg.entry ds.entry amounts.entry (amounts_numbered given) rt strand_excess scaffold_excess) configuration.old (λ d. search_over_entries d strand_bonds.now scaffold_bonds.now configuration.old) }
    ensures lowest_told_over { SaidIn (lent_at scaffold.entry marks.entry glues.entry dg.entry ds.entry amounts.entry (amounts_numbered given) rt strand_excess scaffold_excess) (λ d. LowestToldOver d strand_bonds.now scaffold_bonds.now result configuration.new energy.new) }
{
    let Some(given) = amounts_of(given) else {
        return tell_unnamed(0.0, place, energy);
    };
    let design = Design {
        scaffold,
        marks,
        glues,
        dg,
        ds,
        amounts,
        given,
        ambient: ambient(rt, strand_excess, scaffold_excess),
    };
    let tables = BondTables {
        strand_bonds,
        scaffold_bonds,
    };
    exports::tables::mj_search_over(&design, &tables, configuration, place, energy)
}

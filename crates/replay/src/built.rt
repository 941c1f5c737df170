// The lines about a build: the words after the kind's own, and the parameter set that lines have set. The question is read, the call is made,
// and `Some` is given where the rest of the line says what the call left.
ghost use Rattle.std.specs.Prelude.{OnSome};
ghost use Rattle.sdc1d_params.specs.Params.{params_lent, outcome_of};
ghost use Rattle.replay.specs.Built.{SaysBuilt, BuildLine};

use crate::numbers::{decimal, is_hex, whole};
use crate::parts::split_at_first;
use crate::places::is_places;
use crate::says::refused;
use crate::sets::{POSITIONS, SIDES};
use doubles::bits;
use reply::limits::CELLS;
use sdc1d_params::LentParameters;

// `ok STRAND_GLUES SCAFFOLD_GLUES DG DS` of a build that is answered, and its number where it is refused: `Some` where the words say so.
fn says_built(
    words: &[u8],
    number: u32,
    strand_glues: &[u8],
    scaffold_glues: &[u8],
    dg: &[f64],
    ds: &[f64],
    cell: usize,
) -> Option<()>
    ensures { OnSome result (SaysBuilt words.now (outcome_of number strand_glues.now scaffold_glues.now dg.now ds.now) cell) }
{
    if number != 0 {
        return refused(words, number);
    }
    let (first, rest) = split_at_first(words, b' ');
    let (second, rest) = split_at_first(rest, b' ');
    let (third, rest) = split_at_first(rest, b' ');
    let (fourth, fifth) = split_at_first(rest, b' ');
    if first != b"ok".as_slice() {
        return None;
    }
    if dg.len() <= cell || ds.len() <= cell {
        return None;
    }
    if !is_places(second, strand_glues) {
        return None;
    }
    if !is_places(third, scaffold_glues) {
        return None;
    }
    if !is_hex(fourth, bits(dg[cell]), 16) {
        return None;
    }
    is_hex(fifth, bits(ds[cell]), 16).then_some(())
}

// `BUILD CELL`: all glues, and a cell of both tables.
pub(crate) fn build(words: &[u8], parameters: &LentParameters<'_>) -> Option<()>
    ensures { OnSome result (BuildLine (params_lent parameters.now) words.now) }
{
    let (first, rest) = split_at_first(words, b' ');
    let (second, answer) = split_at_first(rest, b' ');
    let number = whole(first)?;
    let cell = decimal(second)?;
    let sides = parameters.strands.len() / 3 + 9;
    let positions = parameters.scaffold.len() / 3;
    if SIDES < sides || POSITIONS < positions {
        return None;
    }
    let mut strand_glues = [0u8; SIDES];
    let mut scaffold_glues = [0u8; POSITIONS];
    let strand_glues = &mut strand_glues[..sides];
    let scaffold_glues = &mut scaffold_glues[..positions];
    let mut dg = [0.0; CELLS];
    let mut ds = [0.0; CELLS];
    let reply = exports::params::mj_params(
        number,
        parameters,
        strand_glues,
        scaffold_glues,
        &mut dg,
        &mut ds,
    );
    let cell = cell as usize;
    says_built(answer, reply, strand_glues, scaffold_glues, &dg, &ds, cell)
}

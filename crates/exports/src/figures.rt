// Answers on sequences, loops and temperatures as C takes them. A refusal has no figure: 0, and of a double all bits.
// A name says the kind of answer (dg_ds, figure, dg, ln, ambient), then the figure, or `tell`: the reply number is the result, the figures go through
// pointers.
ghost use Rattle.std.specs.Prelude.{◌≡◌};
ghost use Rattle.std.specs.Float.Ieee as Ieee;
ghost use Rattle.std.specs.Float.{binary64};
ghost use Rattle.logarithm.specs.Answer.{ln_figures};
ghost use Rattle.units.specs.Ambient.{ambient_figures};
ghost use Rattle.utils.specs.Answers.{dg_ds_figures, dg_figures};
ghost use Rattle.exports.specs.Told.{placeless_figures};

use doubles::bits;
use reply::Refusal;
use units::{Ambient, KcalPerMol};
use utils::DgDs;

// The dG of one or two sequences.
pub(crate) fn dg_ds_dg(answer: Result<DgDs, Refusal>) -> u64
    ensures { result ≡ Ieee.to_bits binary64 (dg_ds_figures answer).dg }
{
    bits(answer.map_or(0.0, |given| given.dg.0))
}

// Their dS.
pub(crate) fn dg_ds_ds(answer: Result<DgDs, Refusal>) -> u64
    ensures { result ≡ Ieee.to_bits binary64 (dg_ds_figures answer).ds }
{
    bits(answer.map_or(0.0, |given| given.ds.0))
}

// Their reply number, dG and dS.
pub(crate) fn dg_ds_tell(answer: Result<DgDs, Refusal>, dg: &mut f64, ds: &mut f64) -> u32
    ensures value { result ≡ (dg_ds_figures answer).number }
    ensures dg_after { dg.new ≡ (dg_ds_figures answer).dg }
    ensures ds_after { ds.new ≡ (dg_ds_figures answer).ds }
{
    let given = answer.unwrap_or_default();
    *dg = given.dg.0;
    *ds = given.ds.0;
    reply::number(answer)
}

// The reply number and the one figure of a call whose refusals have no place, a blank figure where it refuses.
pub(crate) fn figure_tell<T: Copy>(answer: Result<T, Refusal>, blank: T, figure: &mut T) -> u32
    ensures value { result ≡ (placeless_figures blank answer).number }
    ensures figure_after { figure.new ≡ (placeless_figures blank answer).figure }
{
    *figure = answer.unwrap_or(blank);
    reply::number(answer)
}

// The reply number and the dG of a loop or a strength.
pub(crate) fn dg_tell(answer: Result<KcalPerMol, Refusal>, dg: &mut f64) -> u32
    ensures value { result ≡ (dg_figures answer).number }
    ensures dg_after { dg.new ≡ (dg_figures answer).dg }
{
    figure_tell(answer.map(|dg| dg.0), 0.0, dg)
}

// The reply number and the figure of a logarithm.
pub(crate) fn ln_tell(answer: Result<f64, Refusal>, figure: &mut f64) -> u32
    ensures value { result ≡ (ln_figures answer).number }
    ensures figure_after { figure.new ≡ (ln_figures answer).figure }
{
    figure_tell(answer, 0.0, figure)
}

// The reply number of the ambient, its RT and its two excesses.
pub(crate) fn ambient_tell(
    answer: Result<Ambient, Refusal>,
    rt: &mut f64,
    strand_excess: &mut f64,
    scaffold_excess: &mut f64,
) -> u32
    ensures value { result ≡ (ambient_figures answer).number }
    ensures rt_after { rt.new ≡ (ambient_figures answer).rt }
    ensures strand_excess_after { strand_excess.new ≡ (ambient_figures answer).strand_excess }
    ensures scaffold_excess_after { scaffold_excess.new ≡ (ambient_figures answer).scaffold_excess }
{
    let ambient = answer.unwrap_or_default();
    *rt = ambient.rt.0;
    *strand_excess = ambient.strand_excess.0;
    *scaffold_excess = ambient.scaffold_excess.0;
    reply::number(answer)
}

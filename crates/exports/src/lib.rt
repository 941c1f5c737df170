// The calls that include/mujplesten.h declares as C callers have them, but that a design, tables of bonds, weights, lists and parameters are
// each lent as one, which exports_c puts together out of the parts that C lends; in this file those on sequences and temperatures.
// One function is one call: it answers the reply number and writes places and figures through pointers. Of one and of two sequences there is
// also a function for the reply number and one for each double, as its 64 bits.
#![tactic(auto)]

mod answers;
pub mod designs;
pub mod energies;
mod figures;
pub mod lent;
pub mod names;
pub mod params;
mod place;
pub mod rings;
pub mod search;
pub mod sheets;
pub mod short;
pub mod stored;
pub mod sums;
pub mod tables;
pub mod under;

ghost use Rattle.std.specs.Prelude.{◌≡◌};
ghost use Rattle.std.specs.Float.Ieee as Ieee;
ghost use Rattle.std.specs.Float.{binary64};
ghost use Rattle.logarithm.specs.Answer.{ln_answer};
ghost use Rattle.units.specs.Ambient.{ambient_at};
ghost use Rattle.utils.specs.Loops.{loop_penalty};
ghost use Rattle.utils.specs.Single.{string_dna_dg_ds};
ghost use Rattle.utils.specs.Terms.{published_dna_dg_ds};
ghost use Rattle.utils.specs.Pair.{sequence_pair_dg_ds};
ghost use Rattle.utils.specs.Strength.{sequence_strength, pair_strength};

use units::Kelvin;

// One sequence.
pub fn mj_sequence_reply(s: &[u8]) -> u32
    ensures { result ≡ (string_dna_dg_ds s.now).number }
{
    reply::number(utils::string_dna_dg_ds(s))
}

// Its dG.
pub fn mj_sequence_dg(s: &[u8]) -> u64
    ensures { result ≡ Ieee.to_bits binary64 (string_dna_dg_ds s.now).dg }
{
    figures::dg_ds_dg(utils::string_dna_dg_ds(s))
}

// Its dS.
pub fn mj_sequence_ds(s: &[u8]) -> u64
    ensures { result ≡ Ieee.to_bits binary64 (string_dna_dg_ds s.now).ds }
{
    figures::dg_ds_ds(utils::string_dna_dg_ds(s))
}

// All three at once.
pub fn mj_sequence(s: &[u8], dg: &mut f64, ds: &mut f64) -> u32
    ensures value { result ≡ (string_dna_dg_ds s.now).number }
    ensures dg_after { dg.new ≡ (string_dna_dg_ds s.now).dg }
    ensures ds_after { ds.new ≡ (string_dna_dg_ds s.now).ds }
{
    figures::dg_ds_tell(utils::string_dna_dg_ds(s), dg, ds)
}

// One sequence in the published mode.
pub fn mj_published_reply(s: &[u8]) -> u32
    ensures { result ≡ (published_dna_dg_ds s.now).number }
{
    reply::number(utils::published_dna_dg_ds(s))
}

// Its dG.
pub fn mj_published_dg(s: &[u8]) -> u64
    ensures { result ≡ Ieee.to_bits binary64 (published_dna_dg_ds s.now).dg }
{
    figures::dg_ds_dg(utils::published_dna_dg_ds(s))
}

// Its dS.
pub fn mj_published_ds(s: &[u8]) -> u64
    ensures { result ≡ Ieee.to_bits binary64 (published_dna_dg_ds s.now).ds }
{
    figures::dg_ds_ds(utils::published_dna_dg_ds(s))
}

// Two sequences.
pub fn mj_pair_reply(a: &[u8], b: &[u8]) -> u32
    ensures { result ≡ (sequence_pair_dg_ds a.now b.now).number }
{
    reply::number(utils::sequence_pair_dg_ds(a, b))
}

// Their dG.
pub fn mj_pair_dg(a: &[u8], b: &[u8]) -> u64
    ensures { result ≡ Ieee.to_bits binary64 (sequence_pair_dg_ds a.now b.now).dg }
{
    figures::dg_ds_dg(utils::sequence_pair_dg_ds(a, b))
}

// Their dS.
pub fn mj_pair_ds(a: &[u8], b: &[u8]) -> u64
    ensures { result ≡ Ieee.to_bits binary64 (sequence_pair_dg_ds a.now b.now).ds }
{
    figures::dg_ds_ds(utils::sequence_pair_dg_ds(a, b))
}

// All three at once.
pub fn mj_pair(a: &[u8], b: &[u8], dg: &mut f64, ds: &mut f64) -> u32
    ensures value { result ≡ (sequence_pair_dg_ds a.now b.now).number }
    ensures dg_after { dg.new ≡ (sequence_pair_dg_ds a.now b.now).dg }
    ensures ds_after { ds.new ≡ (sequence_pair_dg_ds a.now b.now).ds }
{
    figures::dg_ds_tell(utils::sequence_pair_dg_ds(a, b), dg, ds)
}

// A loop. Its kind is a number, as C lends it.
pub fn mj_loop_penalty(length: usize, kind: u32, dg: &mut f64) -> u32
    ensures value { result ≡ (loop_penalty length kind).number }
    ensures dg_after { dg.new ≡ (loop_penalty length kind).dg }
{
    figures::dg_tell(utils::loop_penalty(length, kind), dg)
}

// The strength of one sequence.
pub fn mj_sequence_strength(s: &[u8], excess: f64, strength: &mut f64) -> u32
    ensures value { result ≡ (sequence_strength s.now excess).number }
    ensures strength_after { strength.new ≡ (sequence_strength s.now excess).dg }
{
    figures::dg_tell(utils::sequence_strength(s, Kelvin(excess)), strength)
}

// The strength of two sequences.
pub fn mj_pair_strength(a: &[u8], b: &[u8], excess: f64, strength: &mut f64) -> u32
    ensures value { result ≡ (pair_strength a.now b.now excess).number }
    ensures strength_after { strength.new ≡ (pair_strength a.now b.now excess).dg }
{
    figures::dg_tell(utils::pair_strength(a, b, Kelvin(excess)), strength)
}

// The ambient: RT and the two excesses.
pub fn mj_ambient(
    kelvin: f64,
    rt: &mut f64,
    strand_excess: &mut f64,
    scaffold_excess: &mut f64,
) -> u32
    ensures value { result ≡ (ambient_at kelvin).number }
    ensures rt_after { rt.new ≡ (ambient_at kelvin).rt }
    ensures strand_excess_after { strand_excess.new ≡ (ambient_at kelvin).strand_excess }
    ensures scaffold_excess_after { scaffold_excess.new ≡ (ambient_at kelvin).scaffold_excess }
{
    figures::ambient_tell(
        units::ambient_at(Kelvin(kelvin)),
        rt,
        strand_excess,
        scaffold_excess,
    )
}

// The natural logarithm of a double from 2^-60 to 2^10. Reply 15.
pub fn mj_ln(x: f64, logarithm: &mut f64) -> u32
    ensures value { result ≡ (ln_answer x).number }
    ensures logarithm_after { logarithm.new ≡ (ln_answer x).figure }
{
    figures::ln_tell(logarithm::ln(x), logarithm)
}

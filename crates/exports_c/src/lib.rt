// The C functions that include/mujplesten.h declares, each a call of the function of its name in the crate exports, under the same contract;
// C lends a design and tables of bonds by their parts, which are put together here. A crate is a library or the archive that C links, not both.
#![tactic(auto)]

mod designs;
mod energies;
mod names;
mod params;
mod rings;
mod search;
mod sheets;
mod short;
mod stored;
mod sums;
mod tables;
mod under;

ghost use Rattle.std.specs.Prelude.{◌≡◌};
ghost use Rattle.std.specs.Float.Ieee as Ieee;
ghost use Rattle.std.specs.Float.{binary64};
ghost use Rattle.logarithm.specs.Answer.{ln_answer};
ghost use Rattle.units.specs.Ambient.{ambient_at};
ghost use Rattle.utils.specs.Loops.{loop_penalty};
ghost use Rattle.utils.specs.Single.{string_dna_dg_ds};
ghost use Rattle.utils.specs.Terms.{published_dna_dg_ds};
ghost use Rattle.utils.specs.Pair.{sequence_pair_dg_ds};
ghost use Rattle.utils.specs.Strength.{sequence_strength, pair_strength};

// One sequence.
#[unsafe(no_mangle)]
pub extern "C" fn mj_sequence_reply(s: &[u8]) -> u32
    ensures { result ≡ (string_dna_dg_ds s.now).number }
{
    exports::mj_sequence_reply(s)
}

// Its dG.
#[unsafe(no_mangle)]
pub extern "C" fn mj_sequence_dg(s: &[u8]) -> u64
    ensures { result ≡ Ieee.to_bits binary64 (string_dna_dg_ds s.now).dg }
{
    exports::mj_sequence_dg(s)
}

// Its dS.
#[unsafe(no_mangle)]
pub extern "C" fn mj_sequence_ds(s: &[u8]) -> u64
    ensures { result ≡ Ieee.to_bits binary64 (string_dna_dg_ds s.now).ds }
{
    exports::mj_sequence_ds(s)
}

// All three at once.
#[unsafe(no_mangle)]
pub extern "C" fn mj_sequence(s: &[u8], dg: &mut f64, ds: &mut f64) -> u32
    ensures value { result ≡ (string_dna_dg_ds s.now).number }
    ensures dg_after { dg.new ≡ (string_dna_dg_ds s.now).dg }
    ensures ds_after { ds.new ≡ (string_dna_dg_ds s.now).ds }
{
    exports::mj_sequence(s, dg, ds)
}

// One sequence in the published mode.
#[unsafe(no_mangle)]
pub extern "C" fn mj_published_reply(s: &[u8]) -> u32
    ensures { result ≡ (published_dna_dg_ds s.now).number }
{
    exports::mj_published_reply(s)
}

// Its dG.
#[unsafe(no_mangle)]
pub extern "C" fn mj_published_dg(s: &[u8]) -> u64
    ensures { result ≡ Ieee.to_bits binary64 (published_dna_dg_ds s.now).dg }
{
    exports::mj_published_dg(s)
}

// Its dS.
#[unsafe(no_mangle)]
pub extern "C" fn mj_published_ds(s: &[u8]) -> u64
    ensures { result ≡ Ieee.to_bits binary64 (published_dna_dg_ds s.now).ds }
{
    exports::mj_published_ds(s)
}

// Two sequences.
#[unsafe(no_mangle)]
pub extern "C" fn mj_pair_reply(a: &[u8], b: &[u8]) -> u32
    ensures { result ≡ (sequence_pair_dg_ds a.now b.now).number }
{
    exports::mj_pair_reply(a, b)
}

// Their dG.
#[unsafe(no_mangle)]
pub extern "C" fn mj_pair_dg(a: &[u8], b: &[u8]) -> u64
    ensures { result ≡ Ieee.to_bits binary64 (sequence_pair_dg_ds a.now b.now).dg }
{
    exports::mj_pair_dg(a, b)
}

// Their dS.
#[unsafe(no_mangle)]
pub extern "C" fn mj_pair_ds(a: &[u8], b: &[u8]) -> u64
    ensures { result ≡ Ieee.to_bits binary64 (sequence_pair_dg_ds a.now b.now).ds }
{
    exports::mj_pair_ds(a, b)
}

// All three at once.
#[unsafe(no_mangle)]
pub extern "C" fn mj_pair(a: &[u8], b: &[u8], dg: &mut f64, ds: &mut f64) -> u32
    ensures value { result ≡ (sequence_pair_dg_ds a.now b.now).number }
    ensures dg_after { dg.new ≡ (sequence_pair_dg_ds a.now b.now).dg }
    ensures ds_after { ds.new ≡ (sequence_pair_dg_ds a.now b.now).ds }
{
    exports::mj_pair(a, b, dg, ds)
}

// A loop.
#[unsafe(no_mangle)]
pub extern "C" fn mj_loop_penalty(length: usize, kind: u32, dg: &mut f64) -> u32
    ensures value { result ≡ (loop_penalty length kind).number }
    ensures dg_after { dg.new ≡ (loop_penalty length kind).dg }
{
    exports::mj_loop_penalty(length, kind, dg)
}

// The strength of one sequence.
#[unsafe(no_mangle)]
pub extern "C" fn mj_sequence_strength(s: &[u8], excess: f64, strength: &mut f64) -> u32
    ensures value { result ≡ (sequence_strength s.now excess).number }
    ensures strength_after { strength.new ≡ (sequence_strength s.now excess).dg }
{
    exports::mj_sequence_strength(s, excess, strength)
}

// The strength of two sequences.
#[unsafe(no_mangle)]
pub extern "C" fn mj_pair_strength(a: &[u8], b: &[u8], excess: f64, strength: &mut f64) -> u32
    ensures value { result ≡ (pair_strength a.now b.now excess).number }
    ensures strength_after { strength.new ≡ (pair_strength a.now b.now excess).dg }
{
    exports::mj_pair_strength(a, b, excess, strength)
}

// The ambient: RT and the two excesses.
#[unsafe(no_mangle)]
pub extern "C" fn mj_ambient(
    kelvin: f64,
    rt: &mut f64,
    strand_excess: &mut f64,
    scaffold_excess: &mut f64,
) -> u32
    ensures value { result ≡ (ambient_at kelvin).number }
    ensures rt_after { rt.new ≡ (ambient_at kelvin).rt }
    ensures strand_excess_after { strand_excess.new ≡ (ambient_at kelvin).strand_excess }
    ensures scaffold_excess_after { scaffold_excess.new ≡ (ambient_at kelvin).scaffold_excess }
{
    exports::mj_ambient(kelvin, rt, strand_excess, scaffold_excess)
}

// The natural logarithm of a double from 2^-60 to 2^10. Reply 15.
#[unsafe(no_mangle)]
pub extern "C" fn mj_ln(x: f64, logarithm: &mut f64) -> u32
    ensures value { result ≡ (ln_answer x).number }
    ensures logarithm_after { logarithm.new ≡ (ln_answer x).figure }
{
    exports::mj_ln(x, logarithm)
}

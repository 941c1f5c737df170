// Names and the numbers of strand glues as C callers have them.
ghost use Rattle.std.specs.Prelude.{◌≡◌, length};
ghost use Rattle.sdc_common.specs.Lent.{names_of};
ghost use Rattle.sdc_common.specs.Calls.{name_figures, self_and_inverse, strand_glues, glues_after};
ghost use Rattle.exports.specs.Flag.{flag};

use super::figures;
use reply::Refusal;
use sdc_common::NameBase;
use sdc_common::names::Part;

// The reply number of a name, where its base starts, how long that is, and 1 where the name stands for it, 0 where it stands for base*.
fn tell_name(
    answer: Result<NameBase, Refusal>,
    base_start: &mut u64,
    base_length: &mut u64,
    is_base: &mut u64,
) -> u32
    ensures value { result ≡ (name_figures answer).number }
    ensures base_start_after { base_start.new ≡ (name_figures answer).start }
    ensures base_length_after { base_length.new ≡ (name_figures answer).size }
    ensures is_base_after { is_base.new ≡ flag (name_figures answer).from }
{
    let base = answer.unwrap_or_default();
    *base_start = base.part.start as u64;
    *base_length = base.part.size as u64;
    *is_base = base.is_base as u64;
    reply::number(answer)
}

// A name's base: where it starts, its length, and whether the name stands for it or for base*.
pub fn mj_name(
    text: &[u8],
    start: usize,
    length: usize,
    base_start: &mut u64,
    base_length: &mut u64,
    is_base: &mut u64,
) -> u32
    ensures value { result ≡ (self_and_inverse text.now start length).number }
    ensures base_start_after { base_start.new ≡ (self_and_inverse text.now start length).start }
    ensures base_length_after { base_length.new ≡ (self_and_inverse text.now start length).size }
    ensures is_base_after { is_base.new ≡ flag (self_and_inverse text.now start length).from }
{
    let name = Part {
        start,
        size: length,
    };
    tell_name(
        sdc_common::self_and_inverse(text, name),
        base_start,
        base_length,
        is_base,
    )
}

// The numbers of all glues of the user strands, three for each.
pub fn mj_strand_glues(text: &[u8], users: usize, strands: &[usize], glues: &mut [u8]) -> u32
    ensures value { result ≡ strand_glues users text.now (names_of strands.now) (length glues.old) }
    ensures glues_after { glues.new ≡ glues_after users text.now (names_of strands.now) glues.old }
{
    reply::number(sdc_common::strand_glues(text, users, strands, glues))
}

// All sequences of 2 to 8 bases, by their ranks: shorter first, then alphabetically.
#![tactic(auto)]

ghost use Rattle.std.specs.Prelude.{◌≡◌, ◌<◌, ◌≤◌, ◌^◌, length, get_or, replicate};
ghost use Rattle.lists.specs.Front.{over};
ghost use Rattle.model.specs.States.{choice_at};
ghost use Rattle.short_sequences.specs.Sequences.{letters};
ghost use Rattle.short_sequences.specs.Answers.{sequence_figures, sequence_answer, sequence_bytes};

use reply::{Refusal, refused_if};

// How many there are: 4² + 4³ + .. + 4⁸.
pub const SEQUENCES: u64 = 87376;

// The most bases of one.
pub const BASES: usize = 8;

// The bases in alphabetical order, in lower case.
const LETTERS: [u8; 4] = [b'a', b'c', b'g', b't'];

// A letter by its place in the alphabet of the bases.
fn letter(number: u64) -> u8
    requires { number < 4 }
    ensures { result ≡ get_or letters number 0 }
{
    LETTERS[number as usize]
}

// Writes the sequence of so many bases at a rank among these. `count` is how many of them there are.
fn write_bases(bases: usize, count: u64, rank: u64, bytes: &mut [u8])
    requires bases_in_bounds { bases ≤ length bytes.old }
    requires count_value { count ≡ 4 ^ bases }
    requires rank_lt_count { rank < count }
    ensures { bytes.new ≡ over (choice_at (replicate bases letters) rank) bytes.old }
{
    // The sequences that the later places have, and the rank among these.
    let mut later = count;
    let mut left = rank;
    for byte in &mut bytes[..bases] {
        later /= 4;
        *byte = letter(left / later);
        left %= later;
    }
}

// Writes the sequence at a rank from the start of 8 lent bytes, and gives the number of its bases, which is how many bytes it takes.
pub fn short_sequence(rank: u64, bytes: &mut [u8]) -> Result<usize, Refusal>
    ensures result_value { sequence_figures result ≡ sequence_answer rank bytes.old }
    ensures bytes_after { bytes.new ≡ sequence_bytes rank bytes.old }
{
    refused_if(Refusal::WrongSize, bytes.len() != BASES)?;
    refused_if(Refusal::RankTooHigh, SEQUENCES <= rank)?;
    // Those of each length come before all longer ones. A `for` over the lengths would need an answer after the last, which none reaches.
    let mut bases = 2;
    let mut count: u64 = 16;
    let mut left = rank;
    while count <= left {
        left -= count;
        count *= 4;
        bases += 1;
    }
    write_bases(bases, count, left, bytes);
    Ok(bases)
}

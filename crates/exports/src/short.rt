// The sequences of 2 to 8 bases as C callers have them.
ghost use Rattle.std.specs.Prelude.{◌≡◌};
ghost use Rattle.short_sequences.specs.Answers.{sequence_figures, sequence_answer, sequence_bytes};

use super::figures::figure_tell;
use reply::Refusal;
use short_sequences::short_sequence;

// The reply number, and the number of bases.
fn tell_sequence(answer: Result<usize, Refusal>, bases: &mut u64) -> u32
    ensures value { result ≡ (sequence_figures answer).number }
    ensures bases_after { bases.new ≡ (sequence_figures answer).figure }
{
    figure_tell(answer.map(|bases| bases as u64), 0, bases)
}

// Writes the sequence at a rank from the start of 8 lent bytes, and tells how many bases it has. Replies 1, 13.
pub fn mj_short_sequence(rank: u64, bytes: &mut [u8], bases: &mut u64) -> u32
    ensures value { result ≡ (sequence_answer rank bytes.old).number }
    ensures bases_after { bases.new ≡ (sequence_answer rank bytes.old).figure }
    ensures bytes_after { bytes.new ≡ sequence_bytes rank bytes.old }
{
    tell_sequence(short_sequence(rank, bytes), bases)
}

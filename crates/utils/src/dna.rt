// Sequences that were looked at: each letter is a base.
ghost use Rattle.std.specs.Prelude.{◌≡◌, false, ◌<◌, ◌≤◌, length};
ghost use Rattle.std.specs.List.{list_any};
ghost use Rattle.lists.specs.Find.{any};
ghost use Rattle.utils.specs.Bases.{not_a_base};

use crate::bases::{DnaNucleotideBase, base, is_base};
use reply::{Refusal, refused_if};

// Letters that are all bases.
#[derive(Clone, Copy)]
pub(crate) struct Dna<'a> {
    pub(crate) letters: &'a [u8],
    ghost bases: { any not_a_base letters.now ≡ false },
}

// Two strands side by side, of one length.
#[derive(Clone, Copy)]
pub(crate) struct Strands<'a> {
    pub(crate) upper: Dna<'a>,
    pub(crate) lower: Dna<'a>,
    ghost one_length: { length upper.letters.now ≡ length lower.letters.now },
    ghost short: { length upper.letters.now ≤ 256 },
}

// Whether some byte is no base.
fn any_not_a_base(letters: &[u8]) -> bool
    ensures { result ≡ list_any not_a_base letters.now }
{
    letters.iter().any(|letter| !is_base(*letter))
}

impl<'a> Dna<'a> {
    ghost use Rattle.std.specs.Prelude.{slice_index};
    ghost use Rattle.utils.specs.Bases.{base_of};
    ghost use Rattle.utils.specs.inner.Code.{ReadAs};

    // The sequence that has these letters, if all are bases.
    #[tactic(auto, using(crate::proofs::Letters::some_any))]
    pub(crate) fn of(letters: &'a [u8]) -> Result<Dna<'a>, Refusal>
        ensures { ReadAs letters.now result }
    {
        refused_if(Refusal::NotABase, any_not_a_base(letters))?;
        Ok(Dna { letters })
    }

    // The base at a place.
    pub(crate) fn base(&self, at: usize) -> DnaNucleotideBase
        requires { at < length self.now.letters.now }
        ensures { result ≡ base_of (slice_index self.now.letters.now at) }
    {
        base(self.letters[at])
    }
}

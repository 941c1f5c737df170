// Bases and the letters that stand for them.
ghost use Rattle.std.specs.Prelude.{◌≡◌, true, ◌<◌, ◌≤◌, length};
ghost use Rattle.utils.specs.Bases.{is_base, base_of, complementary, index_of};
ghost use Rattle.utils.specs.Pair.{good};
ghost use Rattle.utils.specs.inner.Code.{window_of, window_at};

use crate::dna::Dna;

// The bases in the Rust's order, in which its tables stand.
#[derive(Clone, Copy)]
pub(crate) enum DnaNucleotideBase {
    A,
    T,
    G,
    C,
}

impl DnaNucleotideBase {
    // The number of the base, by which the tables are indexed.
    pub(crate) fn index(self) -> usize
        ensures { (result ≡ index_of self) × (result < 4) }
    {
        self as usize
    }
}

// The number of a letter's base. The letter's second and third bit tell A, C, T and G apart in either case, and the byte here has their
// numbers from its lowest bits up. Branches on the letter would be mispredicted, and cost more than the sums. That it is a base stays a
// `requires`: a `Dna` is read letter by letter, and letters that are bases by type would be a copy of it.
pub(crate) fn base_index(letter: u8) -> usize
    requires { is_base letter ≡ true }
    ensures { (result ≡ index_of (base_of letter)) × (result < 4) }
{
    ((0b10_01_11_00u8 >> (letter & 6)) & 3) as usize
}

// The base of a letter, which was looked at where its sequence was read. A `TryFrom` would test each letter again in the loops.
pub(crate) fn base(letter: u8) -> DnaNucleotideBase
    requires { is_base letter ≡ true }
    ensures { result ≡ base_of letter }
{
    match base_index(letter) {
        0 => DnaNucleotideBase::A,
        1 => DnaNucleotideBase::T,
        2 => DnaNucleotideBase::G,
        _ => DnaNucleotideBase::C,
    }
}

// Whether a byte is a, c, g or t in either case.
#[tactic(auto, unfolding(crate::specs::Bases::is_base))]
pub(crate) fn is_base(letter: u8) -> bool
    ensures { result ≡ is_base letter }
{
    matches!(
        letter,
        b'a' | b'A' | b'c' | b'C' | b'g' | b'G' | b't' | b'T'
    )
}

// Whether two bases pair: the numbers of two that do differ in the lowest bit alone. Looking the partner up would take longer than a window's sums.
pub(crate) fn good_match(a: DnaNucleotideBase, b: DnaNucleotideBase) -> bool
    ensures { result ≡ complementary a b }
{
    a.index() ^ b.index() == 1
}

// Two neighbouring places: a1 a2 of one strand over b1 b2 of the other.
#[derive(Clone, Copy)]
pub(crate) struct Window {
    pub(crate) a1: DnaNucleotideBase,
    pub(crate) a2: DnaNucleotideBase,
    pub(crate) b1: DnaNucleotideBase,
    pub(crate) b2: DnaNucleotideBase,
}

impl Window {
    // The window at the front of two strands.
    pub(crate) fn at(upper: Dna, lower: Dna) -> Window
        requires { (2 ≤ length upper.letters.now) × (2 ≤ length lower.letters.now) }
        ensures { window_of result ≡ window_at upper.entry.letters.now lower.entry.letters.now }
    {
        Window {
            a1: upper.base(0),
            a2: upper.base(1),
            b1: lower.base(0),
            b2: lower.base(1),
        }
    }

    // Whether both places are complementary.
    pub(crate) fn good(self) -> bool
        ensures { result ≡ good (window_of self) }
    {
        good_match(self.a1, self.b1) && good_match(self.a2, self.b2)
    }
}

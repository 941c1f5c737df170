// Names as parts of a text: their bases, and whether lent names are as they should be.
ghost use Rattle.std.specs.Prelude.{◌≡◌, ℕ, [], ◌/◌, ◌%◌, ◌<◌, ◌≤◌, ◌||◌, not, eqb, false, length, slice_index_or};
ghost use Rattle.sdc_common.specs.Names.{base_of, stars_of};
ghost use Rattle.sdc_common.specs.Lent.{part_of, leaves, unfit_name, unfit_glue, name_at, names_of, unfit_names, glue_of};
ghost use Rattle.sdc_common.specs.inner.Fit.{Fit};
ghost use Rattle.sdc_common.specs.inner.Table.{glue};

// The mark of a name that is absent.
pub const ABSENT: usize = 0;

// The mark of a name that is there.
pub const PRESENT: usize = 1;

// The longest name, its stars counted.
const LONGEST: usize = 64;

// The numbers of a name's row.
const ROW: usize = 3;

// A part of a text by its start and its length, which may leave the text. It is no `statements::words::Word`, which has the same fields: in a row a
// word of size 0 is none, and a part of size 0 is an empty name.
#[derive(Clone, Copy, PartialEq, Eq, Debug, Default)]
pub struct Part {
    pub start: usize,
    pub size: usize,
}

impl Part {
    // Whether it leaves the text.
    pub fn leaves(self, text: &[u8]) -> bool
        ensures { result ≡ leaves text.now self.start self.size }
    {
        text.len() < self.start || text.len() - self.start < self.size
    }

    // The bytes of one that does not.
    pub fn bytes(self, text: &[u8]) -> &[u8]
        requires { leaves text.now self.start self.size ≡ false }
        ensures { result.now ≡ part_of text.now self.start self.size }
    {
        let end = self.start + self.size;
        &text[self.start..end]
    }

    // Whether as a name it is too long or leaves the text.
    pub fn is_unfit_name(self, text: &[u8]) -> bool
        ensures { result ≡ unfit_name text.now self.start self.size }
    {
        LONGEST < self.size || self.leaves(text)
    }
}

// A name as it is lent: whether it is there, and its part of the text. The mark is a number of the C interface, which may have neither value.
#[derive(Clone, Copy)]
pub struct LentName {
    pub mark: usize,
    pub part: Part,
}

// A row has the mark, the start and the length.
impl From<[usize; ROW]> for LentName {
    ghost from_gives = { λ row name. name ≡ name_at row 0 };

    fn from(row: [usize; ROW]) -> LentName {
        LentName {
            mark: row[0],
            part: Part {
                start: row[1],
                size: row[2],
            },
        }
    }
}

impl LentName {
    // The bytes of a name that is there.
    pub fn bytes(self, text: &[u8]) -> Option<&[u8]>
        requires { Fit text.now self }
        ensures { glue result ≡ glue_of text.now self }
    {
        if self.mark == ABSENT {
            return None;
        }
        Some(self.part.bytes(text))
    }
}

// The rows of names; what is left of a last row that is not whole belongs to none.
pub fn rows(names: &[usize]) -> &[[usize; ROW]]
    ensures len { length result.now ≡ length names.now / 3 }
    ensures by_index { (k : ℕ) → k < length names.now / 3 → name_at (slice_index_or result.now k []) 0 ≡ name_at names.now k }
{
    names.as_chunks::<ROW>().0
}

// How many stars a name has at its end.
pub fn stars_of(name: &[u8]) -> usize
    ensures { result ≡ stars_of name.now }
{
    name.iter()
        .rev()
        .position(|byte| *byte != b'*')
        .unwrap_or(name.len())
}

// A name without its trailing stars.
pub fn base_of(name: &[u8]) -> &[u8]
    ensures { result.now ≡ base_of name.now }
{
    &name[..name.len() - stars_of(name)]
}

// Whether a mark has neither value, or a present name is unfit.
pub fn unfit_glue(text: &[u8], name: LentName) -> bool
    ensures { result ≡ unfit_glue text.now name }
{
    name.mark != ABSENT && (name.mark != PRESENT || name.part.is_unfit_name(text))
}

// Whether the rows are not whole, or not n. A function of two tests: the check finds those alone, and of more in one `||` it leaves the later ones to
// a proof.
fn is_miscounted(n: usize, names: &[usize]) -> bool
    ensures { result ≡ (not (eqb (length names.now % 3) 0) || not (eqb (length names.now / 3) n)) }
{
    names.len() % ROW != 0 || names.len() / ROW != n
}

// Whether n names are not as they should be.
pub fn unfit_names(n: usize, text: &[u8], names: &[usize]) -> bool
    ensures { result ≡ unfit_names n text.now (names_of names.now) }
{
    is_miscounted(n, names)
        || rows(names)
            .iter()
            .any(|row| unfit_glue(text, LentName::from(*row)))
}

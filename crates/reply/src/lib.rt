// Refusals: why a call is not answered, under the numbers of documents 01 and 02, which stand nowhere else.
#![tactic(auto)]

pub mod limits;

ghost use Rattle.std.specs.Prelude.{◌≡◌, [], ◌∷◌};
ghost use Rattle.reply.specs.Number.{number_of, answer_number};
ghost use Rattle.reply.specs.First.{nowhere, bare, first_of, ◌if◌, ◌if◌at◌};

// The number of a call that is answered.
pub const ANSWERED: u32 = 0;

// Each with its trade word.
#[derive(Clone, Copy, PartialEq, Eq, Debug)]
pub enum Refusal {
    // size: a count, a length, a number or a glue outside its limits
    WrongSize,
    // base: a sequence byte other than a, c, g, t in either case
    NotABase,
    // short: a single sequence of fewer than 2 bases
    TooShort,
    // unequal: paired sequences of different length
    UnequalLengths,
    // loop: a loop kind or a loop length that the table lacks
    NoSuchLoop,
    // unknown: a scaffold name that is neither the base of a strand glue nor that base with one star
    UnknownName,
    // glues: more base names than the tables have room for
    TooManyGlues,
    // twice: two energy entries for one pair of names
    DuplicatePair,
    // range: a number not finite or outside its range; of a design, a cell of its glue tables
    OutOfRange,
    // null: strand 0 or glue 0 takes part in a bond
    NullBinds,
    // stranger: a place that holds neither 0 nor a friend
    NotAFriend,
    // many: more states than are counted
    TooManyStates,
    // rank: a rank at or above the number of states
    RankTooHigh,
    // deck: a stored configuration that breaks the word rules
    BadDeck,
    // dilute: a concentration that a design reads, or the logarithm's argument, is not between 2^-60 and 2^10
    TooDilute,
    // ambient: RT or an excess of a design's ambient is out of range
    AmbientOut,
    // potential: a potential that a design reads is out of range
    PotentialOut,
    // bare: a sum over the states of a scaffold of no positions
    BareScaffold,
    // weight: a weight that some state uses is outside its form
    WeightOut,
    // ring: a ring of fewer than 3 positions
    NotARing,
    // stars: a strand or entry name that ends in two or more stars, in an ordinary build
    TwoStars,
    // job: a job word of another kind or payload
    NotAJob,
    // none: no state at or under the ceiling
    NoneUnder,
}

// A refusal, and where the fault lies for those that say so.
#[derive(Clone, Copy, PartialEq, Eq, Debug)]
pub struct Refused {
    pub refusal: Refusal,
    pub place: Option<usize>,
}

// A refusal that says no place.
impl From<Refusal> for Refused {
    ghost from_gives = { λ refusal refused. refused ≡ nowhere refusal };

    fn from(refusal: Refusal) -> Refused {
        Refused {
            refusal,
            place: None,
        }
    }
}

impl Refusal {
    // The number in the documents' table.
    pub fn number(self) -> u32
        ensures { result ≡ number_of self }
    {
        match self {
            Refusal::WrongSize => 1,
            Refusal::NotABase => 2,
            Refusal::TooShort => 3,
            Refusal::UnequalLengths => 4,
            Refusal::NoSuchLoop => 5,
            Refusal::UnknownName => 6,
            Refusal::TooManyGlues => 7,
            Refusal::DuplicatePair => 8,
            Refusal::OutOfRange => 9,
            Refusal::NullBinds => 10,
            Refusal::NotAFriend => 11,
            Refusal::TooManyStates => 12,
            Refusal::RankTooHigh => 13,
            Refusal::BadDeck => 14,
            Refusal::TooDilute => 15,
            Refusal::AmbientOut => 16,
            Refusal::PotentialOut => 17,
            Refusal::BareScaffold => 18,
            Refusal::WeightOut => 19,
            Refusal::NotARing => 20,
            Refusal::TwoStars => 21,
            Refusal::NotAJob => 22,
            Refusal::NoneUnder => 23,
        }
    }
}

// The number of a call whose refusals have no place, whatever it gives.
pub fn number<T: Copy>(answer: Result<T, Refusal>) -> u32
    ensures { result ≡ answer_number answer }
{
    match answer {
        Ok(_) => ANSWERED,
        Err(refusal) => refusal.number(),
    }
}

// A refusal where its condition holds, with no place.
pub fn refused_if(refusal: Refusal, holds: bool) -> Result<(), Refusal>
    ensures { result ≡ bare (first_of (refusal if holds ∷ [])) }
{
    if holds {
        return Err(refusal);
    }
    Ok(())
}

// A refusal where its condition holds, and its place.
pub fn refused_at(refusal: Refusal, holds: bool, place: usize) -> Result<(), Refused>
    ensures { result ≡ first_of (refusal if holds at place ∷ []) }
{
    if holds {
        return Err(Refused {
            refusal,
            place: Some(place),
        });
    }
    Ok(())
}

// The grammar: the kinds of rows, their keywords, and what each word after the keyword has to be.
ghost use Rattle.std.specs.Prelude.{◌≡◌, ◌<◌};
ghost use Rattle.std.specs.Option.{ForSome};
ghost use Rattle.statements.specs.Grammar.{kind_of, is_position, sequence_kind, InRow, items_of, item_of};

// The kinds of rows, each by its keyword; `scaffold` and `blocked` give a row for each position.
#[derive(Clone, Copy, PartialEq, Eq)]
pub enum Kind {
    Kelvin,
    Ambient,
    Strand,
    Quencher,
    Reporter,
    // A position of `scaffold`.
    Position,
    // `energy` with dg and ds.
    EnergyGiven,
    // `energy` with seq.
    EnergySequence,
    // `pair` with dg and ds.
    PairGiven,
    // `pair` with seq.
    PairSequence,
    Penalty,
    // A position of `blocked`.
    Blocked,
    Celsius,
    Ring,
}

// The words that begin a statement. `energy` and `pair` are of the kind with numbers, until `seq` is met. A table: of a `match` on twelve byte strings
// the proof does not close.
const KEYWORDS: [(&[u8], Kind); 12] = [
    (b"kelvin", Kind::Kelvin),
    (b"ambient", Kind::Ambient),
    (b"strand", Kind::Strand),
    (b"quencher", Kind::Quencher),
    (b"reporter", Kind::Reporter),
    (b"scaffold", Kind::Position),
    (b"energy", Kind::EnergyGiven),
    (b"pair", Kind::PairGiven),
    (b"penalty", Kind::Penalty),
    (b"blocked", Kind::Blocked),
    (b"celsius", Kind::Celsius),
    (b"ring", Kind::Ring),
];

// What a word after the keyword has to be, and the slot of the row that it fills.
#[derive(Clone, Copy)]
pub enum Item {
    Number(usize),
    // A potential or a concentration, which is the row's first number.
    Amount,
    // Any word but `-`.
    Name(usize),
    // Any word, or `-` where there is none.
    Glue(usize),
    Bases(usize),
    DgOrSeq,
    Ds,
}

impl Kind {
    // The kind of a statement with this first word.
    pub fn of(word: &[u8]) -> Option<Kind>
        ensures { result ≡ kind_of word.now }
    {
        KEYWORDS
            .iter()
            .find(|(keyword, _)| word == *keyword)
            .map(|(_, kind)| *kind)
    }

    // Whether a row is a position's, open or blocked.
    pub(crate) fn is_position(self) -> bool
        ensures { result ≡ is_position self }
    {
        matches!(self, Kind::Position | Kind::Blocked)
    }

    // The kind with a sequence for its numbers.
    #[tactic(auto, unfolding(crate::specs::Grammar::sequence_kind))]
    pub(crate) fn with_sequence(self) -> Kind
        ensures { result ≡ sequence_kind self }
    {
        match self {
            Kind::EnergyGiven => Kind::EnergySequence,
            Kind::PairGiven => Kind::PairSequence,
            _ => self,
        }
    }

    // What stands after the keyword.
    #[tactic(auto, unfolding(crate::specs::Grammar::items_of))]
    fn items(self) -> &'static [Item]
        ensures { result.now ≡ items_of self }
    {
        use Item::{Amount, Bases, DgOrSeq, Ds, Glue, Name, Number};

        match self {
            Kind::Kelvin | Kind::Celsius => &[Number(0)],
            Kind::Ambient => &[Number(0), Number(1), Number(2)],
            Kind::Strand => &[Name(0), Glue(1), Glue(2), Glue(3), Amount],
            Kind::Quencher | Kind::Reporter => &[Glue(0), Amount],
            Kind::Position | Kind::Blocked => &[Glue(0)],
            Kind::EnergyGiven => &[Name(0), DgOrSeq, Number(0), Ds, Number(1)],
            Kind::EnergySequence => &[Name(0), DgOrSeq, Bases(1)],
            Kind::PairGiven => &[Name(0), Name(1), DgOrSeq, Number(0), Ds, Number(1)],
            Kind::PairSequence => &[Name(0), Name(1), DgOrSeq, Bases(2)],
            Kind::Penalty => &[Number(0), Number(1)],
            Kind::Ring => &[],
        }
    }

    // What the word at a place after the keyword has to be; after the last item there is none.
    #[tactic(auto, unfolding(crate::specs::Grammar::item_of))]
    pub(crate) fn item_at(self, place: usize) -> Option<Item>
        ensures value { result ≡ item_of self place }
        ensures in_row { ForSome result InRow }
    {
        self.items().get(place).copied()
    }
}

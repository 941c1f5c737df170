// The kinds of lines that are compared.

// A kind of line; each has a count of its own.
#[derive(Clone, Copy, PartialEq, Eq)]
pub(crate) enum Kind {
    Sequence,
    Pair,
    Loop,
    Strength,
    Strength2,
    Ambient,
    Name,
    StrandBond,
    ScaffoldBond,
    Friends,
    Count,
    State,
    StateEnergy,
    ChainEnergy,
    Search,
    Settled,
    DeckRead,
    DeckWrite,
    DeckMove,
    Build,
}

// The kinds, each after its own word, in the order in which they are counted.
pub(crate) const KINDS: [(&[u8], Kind); 20] = [
    (b"seq", Kind::Sequence),
    (b"pair", Kind::Pair),
    (b"loop", Kind::Loop),
    (b"strength", Kind::Strength),
    (b"strength2", Kind::Strength2),
    (b"ambient", Kind::Ambient),
    (b"name", Kind::Name),
    (b"sbond", Kind::StrandBond),
    (b"cbond", Kind::ScaffoldBond),
    (b"friends", Kind::Friends),
    (b"nstates", Kind::Count),
    (b"state", Kind::State),
    (b"gsys", Kind::StateEnergy),
    (b"chain", Kind::ChainEnergy),
    (b"mfe", Kind::Search),
    (b"settled", Kind::Settled),
    (b"read", Kind::DeckRead),
    (b"write", Kind::DeckWrite),
    (b"move", Kind::DeckMove),
    (b"build", Kind::Build),
];

impl Kind {
    // The kind of a line with this first word. `statements` looks up its keywords alike, in a table of its own that it does not lend: one search over
    // either would be handed the table, and is no shorter than this `find`.
    pub(crate) fn of(word: &[u8]) -> Option<Kind> {
        KINDS
            .iter()
            .find(|(own, _)| word == *own)
            .map(|(_, kind)| *kind)
    }
}

// What a job word asks: its kind in the top 4 bits, its payload in the low 28.
ghost use Rattle.std.specs.Prelude.{◌≡◌};
ghost use Rattle.jobs.specs.Word.{job_of};

use deck::word::Word;

// The kind of a state energy at a rank.
const ENERGY_AT: u32 = 8;

// The kind of a search.
const SEARCH: u32 = 9;

// The kind of a count of the states.
const COUNT: u32 = 10;

// A job.
#[derive(Clone, Copy, PartialEq, Eq, Debug)]
pub enum Job {
    // the state energy of the state at a rank
    EnergyAt(u64),
    // the lowest configuration and its energy
    Search,
    // how many states there are
    Count,
}

// The job of a word, none of a word of another kind or payload. A rank may be any payload; the other kinds have payload 0.
#[tactic(auto, unfolding(crate::specs::Word::job_of))]
pub(crate) fn read(word: u32) -> Option<Job>
    ensures { result ≡ job_of word }
{
    let Word { kind, payload } = Word::of(word);
    match (kind, payload) {
        (ENERGY_AT, rank) => Some(Job::EnergyAt(u64::from(rank))),
        (SEARCH, 0) => Some(Job::Search),
        (COUNT, 0) => Some(Job::Count),
        _ => None,
    }
}

// The left choice of each entry of a position: the left entry that it attaches to, and the energy that this was compared with.
ghost use Rattle.std.specs.Prelude.{◌≡◌, ℕ, ◌<◌, ◌≤◌, length, get_or, Float};
ghost use Rattle.std.specs.Float.{nan};
ghost use Rattle.doubles.specs.Least.{pick, last_least};
ghost use Rattle.ensemble.specs.inner.Entries.{Chosen, KeyedBy, DecidedBy, Known, table_bond, Keys, Attachments, Low};

use super::bonds::StrandBonds;
use reply::limits::STRANDS;

// One of several entries, and the energy that it was compared with.
#[derive(Clone, Copy)]
pub(crate) struct Attached {
    pub strand: u8,
    pub energy: f64,
}

// The entries of a position: an option each, with its energy; and the bonds by which strands to their right attach to them.
#[derive(Clone, Copy)]
pub(crate) struct Entries<'a> {
    pub options: &'a [u8],
    pub energies: &'a [f64],
    pub bonds: StrandBonds<'a>,
    ghost known: { Known bonds.strands options.now },
    ghost an_energy_each: { length options.now ≤ length energies.now },
}

impl Entries<'_> {
    // The entry with the least key. `stays` says whether the one kept so far stays before the next, and so which of equals is taken. To the left of
    // position 0 there is no entry, and the energy is 0.0.
    pub(crate) fn least<K: Fn(u8, f64) -> f64, S: Fn(f64, f64) -> bool>(
        &self,
        key: K,
        stays: S,
    ) -> Attached
        requires keyed { (k : ℕ) → k < length self.now.options.now → K.pre key (get_or self.now.options.now k 0) (get_or self.now.energies.now k nan) }
        requires compared { (kept next : Float) → S.pre stays kept next }
        ensures chosen { (value : ℕ → Float) (better : ℕ → ℕ → ℕ) → KeyedBy (K.post key) self.now.options.now self.now.energies.now value → DecidedBy (S.post stays) value better → Chosen value self.now.options.now (pick better self.now.options.now) result }
        ensures known { result.strand < 64 }
    {
        if self.options.is_empty() {
            return Attached {
                strand: 0,
                energy: 0.0,
            };
        }
        let mut strand = self.options[0];
        let mut energy = key(strand, self.energies[0]);
        // By hand: with `zip`, `map` and `reduce` over the two closures, neither that they may be called nor what is kept at the end was proved.
        for (next, given) in self.options[1..].iter().zip(&self.energies[1..]) {
            let next_energy = key(*next, *given);
            if !stays(energy, next_energy) {
                strand = *next;
                energy = next_energy;
            }
        }
        Attached { strand, energy }
    }

    // The entry that a friend attaches to: the least of the energies plus the strand bond, among equals the later one.
    fn least_for_friend(&self, right: usize) -> Attached
        requires { right < self.now.bonds.strands }
        ensures chosen { (key : ℕ → Float) → Keys (table_bond self.now.bonds.strands self.now.bonds.cells.now) self.now.options.now self.now.energies.now right key → Chosen key self.now.options.now (last_least key self.now.options.now) result }
        ensures known { result.strand < 64 }
    {
        self.least(
            |strand, energy| energy + self.bonds.between(strand, right),
            |kept, next| kept < next,
        )
    }

    // The entry before an empty place: the least of the energies alone, among equals the later one.
    pub(crate) fn least_for_empty(&self) -> Attached
        ensures chosen { (key : ℕ → Float) → ((k : ℕ) → k < length self.now.options.now → get_or self.now.energies.now k nan ≡ key (get_or self.now.options.now k 0)) → Chosen key self.now.options.now (last_least key self.now.options.now) result }
        ensures known { result.strand < 64 }
    {
        self.least(|_, energy| energy, |kept, next| kept < next)
    }
}

// The left choice of each friend, and the energy that it was compared with, by its strand: each friend on its own.
pub(crate) fn attach_each(
    left: &Entries,
    friends: &[u8],
    best: &mut [f64; STRANDS],
    choice: &mut [u8; STRANDS],
)
    requires known { Known left.now.bonds.strands friends.now }
    requires low { Low choice.old }
    ensures { Attachments (table_bond left.now.bonds.strands left.now.bonds.cells.now) left.now.options.now left.now.energies.now friends.now (length friends.now) best.new choice.new }
{
    for friend in friends {
        let right = usize::from(*friend);
        let attached = left.least_for_friend(right);
        best[right] = attached.energy;
        choice[right] = attached.strand;
    }
}

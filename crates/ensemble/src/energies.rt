// Both energies of a configuration, from the terms of its places, summed in the Rust's order from 0.0.
ghost use Rattle.std.specs.Prelude.{◌≡◌, ◌+◌, ◌-◌, ◌<◌, ◌≤◌, length, get_or, drop};
ghost use Rattle.doubles.specs.Decimal.{zero};
ghost use Rattle.doubles.specs.Sum.{sum_from};
ghost use Rattle.model.specs.Model.{Model};
ghost use Rattle.model.specs.Energy.{state_place, state_terms, left_of, chain_place, chain_energy};
ghost use Rattle.model.specs.Ring.{closed};
ghost use Rattle.ensemble.specs.Layout.{PlaceTerms};
ghost use Rattle.ensemble.specs.Ring.{ClosingTerm};

// The terms of a place: the scaffold bond and the potential of its occupant, and the bond of that with the place to the right.
#[derive(Clone, Copy, Default)]
pub struct Terms {
    pub site: f64,
    pub pair: f64,
    pub potential: f64,
}

// The places of a configuration: the occupant and the terms of each.
#[derive(Clone, Copy)]
pub struct Places<'a> {
    pub configuration: &'a [u8],
    pub terms: &'a [Terms],
    ghost terms_each: { length configuration.now ≤ length terms.now },
}

impl Places<'_> {
    // The state sum after one more place.
    fn add_state_place(&self, sum: f64, id: usize) -> f64
        requires { id < length self.now.configuration.now }
        ensures { (m : Model) → PlaceTerms m self.now.configuration.now self.now.terms.now → result ≡ sum_from sum (state_place m id (get_or self.now.configuration.now id 0) (drop (id + 1) self.now.configuration.now)) }
    {
        if self.configuration[id] == 0 {
            return sum;
        }
        let Terms {
            site,
            pair,
            potential,
        } = self.terms[id];
        let right = id + 1;
        if right < self.configuration.len() {
            return sum + site + pair - potential;
        }
        sum + site - potential
    }

    // The chain sum after one more place.
    fn add_chain_place(&self, sum: f64, position: usize) -> f64
        requires { position < length self.now.configuration.now }
        ensures { (m : Model) → PlaceTerms m self.now.configuration.now self.now.terms.now → result ≡ sum_from sum (chain_place m position (left_of self.now.configuration.now position) (get_or self.now.configuration.now position 0)) }
    {
        if self.configuration[position] == 0 {
            return sum;
        }
        let Terms {
            site,
            potential,
            ..
        } = self.terms[position];
        if position == 0 {
            return sum + site - potential;
        }
        let left = position - 1;
        let pair = self.terms[left].pair;
        sum + pair + site - potential
    }

    // The sum of `g_system` over all places, before the product with RT.
    pub fn state_sum(&self) -> f64
        ensures { (m : Model) → PlaceTerms m self.now.configuration.now self.now.terms.now → result ≡ sum_from zero (state_terms m 0 self.now.configuration.now) }
    {
        // By number: a place reads its right neighbour too.
        let mut sum = 0.0;
        for id in 0..self.configuration.len() {
            sum = self.add_state_place(sum, id);
        }
        sum
    }

    // The chain sum over all places, before the product with RT. No twin of the state sum: they round in different orders, and each is the sum of terms of
    // its own definition, `state_terms` and `chain_energy`.
    pub fn chain_sum(&self) -> f64
        ensures { (m : Model) → PlaceTerms m self.now.configuration.now self.now.terms.now → result ≡ chain_energy m self.now.configuration.now }
    {
        // By number: a place reads its left neighbour too.
        let mut sum = 0.0;
        for position in 0..self.configuration.len() {
            sum = self.add_chain_place(sum, position);
        }
        sum
    }

    // The ring's sum over all places, before the product with RT: the chain's, and the bond from the last to the first occupant where both places are
    // occupied.
    pub fn ring_sum(&self, closing: f64) -> f64
        requires some { 0 < length self.now.configuration.now }
        ensures { (m : Model) → PlaceTerms m self.now.configuration.now self.now.terms.now → ClosingTerm m self.now.configuration.now closing → result ≡ closed m (get_or self.now.configuration.now 0 0) (get_or self.now.configuration.now (length self.now.configuration.now - 1) 0) (chain_energy m self.now.configuration.now) }
    {
        let sum = self.chain_sum();
        let last = self.configuration.len() - 1;
        if self.configuration[0] == 0 || self.configuration[last] == 0 {
            return sum;
        }
        sum + closing
    }
}

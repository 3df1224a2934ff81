//! Whose turn it is.
ghost use Rattle.std.specs.Prelude.{◌≡◌, ◌<◌, false, length};
ghost use Rattle.std.specs.Option.{option_map};
ghost use Rattle.jx_model.specs.SingleWorker as Spec;
ghost use Rattle.nucleus_tables.specs.NucleusStates.{IsNucleusOf};
ghost use Rattle.run_alone.specs.Workers.{past_in};

use crate::worker::Worker;
use jx_base::{Act, DomainId, System};

#[tactic(auto, unfolding(jx_model::specs::SingleWorker::is_yield))]
fn is_yield(act: &Act) -> bool
    ensures { result ≡ Spec.is_yield act.now }
{
    matches!(act, Act::Yield)
}

impl Worker {
    // Whether the domain of the last entry goes on.
    fn goes_on(&self, system: &System) -> bool
        requires nucleus { IsNucleusOf system.now self.now.nucleus }
        requires some { 0 < length (past_in self.now) }
        ensures { result ≡ Spec.goes_on (past_in self.now) }
    {
        let last = self.nucleus.last();
        if last.domain.0 == 0 || is_yield(&last.act) {
            return false;
        }
        self.nucleus.can_act(system, last.domain)
    }

    // The least domain above that number that can act.
    fn next_above(&self, system: &System, above: u32) -> Option<DomainId>
        requires { IsNucleusOf system.now self.now.nucleus }
        ensures { option_map (λ d. d.0) result
            ≡ Spec.next_above (past_in self.now) above }
    {
        for number in 1..self.nucleus.domains() + 1 {
            if number > above && self.nucleus.can_act(system, DomainId(number)) {
                return Some(DomainId(number));
            }
        }
        None
    }

    // The next domain that can act above that of the last entry, or else the least that can.
    fn next_in_turn(&self, system: &System) -> Option<DomainId>
        requires nucleus { IsNucleusOf system.now self.now.nucleus }
        requires some { 0 < length (past_in self.now) }
        requires waits { Spec.goes_on (past_in self.now) ≡ false }
        ensures { option_map (λ d. d.0) result ≡ Spec.next_domain (past_in self.now) }
    {
        match self.next_above(system, self.nucleus.last().domain.0) {
            Some(domain) => Some(domain),
            None => self.next_above(system, 0),
        }
    }

    /// The domain whose turn it is.
    pub fn next_domain(&self, system: &System) -> Option<DomainId>
        requires { IsNucleusOf system.now self.now.nucleus }
        ensures { option_map (λ d. d.0) result ≡ Spec.next_domain (past_in self.now) }
    {
        if self.nucleus.domains() == 0 {
            return None;
        }
        if self.goes_on(system) {
            return Some(self.nucleus.last().domain);
        }
        self.next_in_turn(system)
    }
}

//! Why domains ended, found in one pass over the entries.
ghost use Rattle.std.specs.Prelude.{◌≡◌, ◌≤◌, Some, reverse, set, slice_get};
ghost use Rattle.jx_base.specs.Basics.{not_below_zero};
ghost use Rattle.jx_model.specs.Domains.{ended_by};
ghost use Rattle.audit_text.specs.Rendering.{HasReasons, noted};

use jx_base::{Act, Entry, Reason, Reply};

// The number of a domain is its place, so that there is one more than domains ever.
const PLACES: usize = 65;

/// Why each domain ended, by its number, if it did.
#[derive(Clone, Copy)]
pub struct EndReasons {
    pub by_number: [Option<Reason>; PLACES],
}

// The domain of that number, or 0 for one below 0.
#[tactic(auto, unfolding(jx_base::specs::Basics::not_below_zero))]
fn killed_number(domain: i32) -> u32
    ensures { result ≡ not_below_zero domain }
{
    if domain < 0 { 0 } else { domain as u32 }
}

/// The domain that an entry ends, and why.
#[tactic(auto, unfolding(jx_model::specs::Domains::ended_by, jx_model::specs::Domains::ended_by_act, jx_base::specs::Histories::is_done))]
pub fn ended_by(entry: &Entry) -> Option<(u32, Reason)>
    ensures { result ≡ ended_by entry.now }
{
    match (&entry.act, &entry.reply) {
        (Act::Exit(code), _) => Some((entry.domain.0, Reason::Exit(*code))),
        (Act::End(why), _) => Some((entry.domain.0, *why)),
        (Act::Kill(_), Reply::Refused(_)) => None,
        (Act::Kill(domain), _) => Some((killed_number(*domain), Reason::Killed)),
        _ => None,
    }
}

// Puts the reason at a place, where there is such a place.
fn put_reason(reasons: &mut [Option<Reason>], place: usize, why: Reason)
    ensures { reasons.new ≡ set reasons.old place (Some why) }
{
    if place < reasons.len() {
        reasons[place] = Some(why);
    }
}

impl EndReasons {
    /// The reasons after these entries.
    pub fn after(entries: &[Entry]) -> EndReasons
        ensures { HasReasons result.by_number (reverse entries.now) }
    {
        let mut reasons = EndReasons {
            by_number: [None; PLACES],
        };
        for entry in entries {
            reasons.note(entry);
        }
        reasons
    }

    // Notes why a domain ends by the entry, if one does.
    #[tactic(auto, unfolding(crate::specs::Rendering::noted))]
    fn note(&mut self, entry: &Entry)
        ensures { self.new.by_number ≡ noted (ended_by entry.now) self.old.by_number }
    {
        if let Some((domain, why)) = ended_by(entry) {
            put_reason(&mut self.by_number, domain as usize, why);
        }
    }

    /// Why the domain ended, if it did.
    pub fn reason(&self, domain: u64) -> Option<Reason>
        requires { domain ≤ 64 }
        ensures { slice_get self.now.by_number domain ≡ Some result }
    {
        self.by_number[domain as usize]
    }
}

//! The tables before the first entry.
ghost use Rattle.std.specs.Prelude.{◌≡◌, [], IfOk, filter, length};
ghost use Rattle.std.specs.List.{range_with_len};
ghost use Rattle.jx_model.specs.Permits.{boot_templates};
ghost use Rattle.program_model.specs.Plans.{IsPlanInRange};
ghost use Rattle.nucleus_tables.specs.Inner.{IsOf, past_in};

use crate::places::Places;
use crate::tables::Tables;
use call_table::Calls;
use domain_table::Domains;
use journal::Journal;
use jx_base::{OutOfMemory, System};
use memory_space::Space;
use portal_table::Services;
use std::alloc::Global;

// The words that an entry costs at least.
const LEAST_WORDS: u32 = 8;

// The templates that are created at the start, in the plan's order.
fn boots(alloc: Global, system: &System) -> Result<Vec<u32>, OutOfMemory>
    requires { IsPlanInRange system.now.plan }
    ensures { IfOk result (λ boots. boots.items ≡ boot_templates system.now) }
{
    let templates = system.plan.templates.as_slice();
    let mut boots = Vec::new(alloc);
    for place in 0..templates.len() {
        if templates[place].boot {
            boots.push(place as u32)?;
        }
    }
    Ok(boots)
}

impl Tables {
    /// No entries yet.
    pub fn open(alloc: Global, system: &System) -> Result<Tables, OutOfMemory>
        requires { IsPlanInRange system.now.plan }
        ensures tables { IfOk result (IsOf system.now) }
        ensures start { IfOk result (λ tables. past_in tables ≡ []) }
    {
        Ok(Tables {
            journal: Journal::open(alloc, system.plan.journal)?,
            over: false,
            creates: 0,
            boots: boots(alloc, system)?,
            domains: Domains::open(alloc, system)?,
            services: Services::open(alloc, system.plan.journal)?,
            space: Space::open(alloc, system)?,
            calls: Calls::open(alloc, system.plan.journal / LEAST_WORDS)?,
            places: Places::open(alloc, system.plan.journal / LEAST_WORDS)?,
        })
    }
}

//! The history of a run, and the tables that are kept beside it.

use crate::places::Places;
use call_table::Calls;
use domain_table::Domains;
use journal::Journal;
use memory_space::Space;
use portal_table::Services;

/// The entries, whether one of them ended the run, how many creates are among them, the templates
/// that are created at the start, the domains with their threads, the services with their names,
/// memory, and the calls with the places of their parcels.
#[derive(Drop)]
pub struct Tables {
    pub journal: Journal,
    pub over: bool,
    pub creates: usize,
    pub boots: Vec<u32>,
    pub domains: Domains,
    pub services: Services,
    pub space: Space,
    pub calls: Calls,
    pub places: Places,
}

//! Tests of whole runs, over shelves and sinks in memory.
#![tactic(auto)]

#[cfg(test)]
mod assemblies;
#[cfg(test)]
mod bad_classes;
#[cfg(test)]
mod calls;
#[cfg(test)]
mod first_run;
#[cfg(test)]
mod forms;
#[cfg(test)]
mod systems;
#[cfg(test)]
mod whole_runs;

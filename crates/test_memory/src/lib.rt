//! Tests of the pool of granules, of heaps and of parcels.
#![tactic(auto)]

#[cfg(test)]
mod fitting;
#[cfg(test)]
mod heaps;
#[cfg(test)]
mod limits;
#[cfg(test)]
mod objects;
#[cfg(test)]
mod packed;
#[cfg(test)]
mod parcel_text;
#[cfg(test)]
mod parcels;
#[cfg(test)]
mod pool;
#[cfg(test)]
mod pools;
#[cfg(test)]
mod supers;
#[cfg(test)]
mod systems;

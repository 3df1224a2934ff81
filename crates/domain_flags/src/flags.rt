//! A flag for each domain.
ghost use Rattle.std.specs.Prelude.{◌≡◌, false, replicate, slice_get, true};
ghost use Rattle.std.specs.List.{list_any};
ghost use Rattle.domain_flags.specs.FlagLists.{IsDomain, only_flag, with_flag};
ghost use Rattle.jx_base.specs.Basics.{numbered, passes};
ghost use Rattle.table_reads.specs.TableReads.{flag_at};
ghost use Rattle.table_threads.specs.Changes as Changes;

// How many domains there are ever.
const DOMAINS: usize = 64;

/// A flag for each number of a domain, from 1 to 64.
#[derive(Clone, Copy)]
pub struct DomainFlags {
    pub flags: [bool; DOMAINS],
}

// Whether the flag at that place is set.
fn is_set_at(flags: &[bool], place: usize) -> bool
    ensures { result ≡ passes Changes.is_set (slice_get flags.now place) }
{
    match flags.get(place) {
        Some(flag) => *flag,
        None => false,
    }
}

// Whether a flag is set.
fn any_set(flags: &[bool]) -> bool
    ensures { result ≡ list_any Changes.is_set flags.now }
{
    flags.iter().any(|flag| *flag)
}

impl DomainFlags {
    /// No flag is set.
    pub fn none() -> DomainFlags
        ensures { result.flags ≡ replicate 64 false }
    {
        DomainFlags {
            flags: [false; DOMAINS],
        }
    }

    /// The flag of that domain alone is set.
    pub fn only(domain: u32) -> DomainFlags
        requires { IsDomain domain }
        ensures { result.flags ≡ only_flag domain }
    {
        let mut flags = [false; DOMAINS];
        flags[domain as usize - 1] = true;
        DomainFlags { flags }
    }

    /// Whether the flag of the domain is set.
    pub fn is_set(&self, domain: u32) -> bool
        ensures flag { result ≡ flag_at self.now.flags domain }
        ensures domain { result ≡ true → IsDomain domain }
    {
        match domain.checked_sub(1) {
            Some(place) => is_set_at(&self.flags, place as usize),
            None => false,
        }
    }

    /// Whether any flag is set.
    pub fn has_any(&self) -> bool
        ensures { result ≡ list_any Changes.is_set self.now.flags }
    {
        any_set(&self.flags)
    }

    /// The flags with that of the domain set or not.
    pub fn with(self, domain: u32, flag: bool) -> DomainFlags
        requires { IsDomain domain }
        ensures { result.flags ≡ with_flag domain flag self.flags }
    {
        let mut flags = self.flags;
        flags[domain as usize - 1] = flag;
        DomainFlags { flags }
    }
}

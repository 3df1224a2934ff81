//! The services, and who holds portals to them.
ghost use Rattle.std.specs.Prelude.{◌≡◌, ◌++◌, ◌∷◌, ◌≤◌, [], IfOk, IfSome, None, false, if◌then◌else◌, length, nat_lt, replicate};
ghost use Rattle.std.specs.Option.{option_map};
ghost use Rattle.domain_flags.specs.FlagLists.{IsDomain, with_flag};
ghost use Rattle.jx_base.specs.Basics.{numbered};
ghost use Rattle.table_threads.specs.Changes.{changed_at};
ghost use Rattle.portal_table.specs.NameLists.{name_words};
ghost use Rattle.portal_table.specs.ServiceLists.{IsService, after_bind, after_lookup, bind_reply, export_reply};
ghost use Rattle.portal_table.specs.ServiceLists.{holds_in, lookup_reply, new_service, owner_of, service_bound, with_holder};
ghost use Rattle.portal_table.specs.ServiceLists.{live_service, without_domain};
ghost use Rattle.portal_table.specs.ServicesInside.{IsPortal, record_of};

use crate::names::Names;
use domain_flags::DomainFlags;
use jx_base::{ClassId, DomainId, OutOfMemory, Refusal, Reply, ServiceId, Text};
use std::alloc::Global;
use std::marker::Model;

// How many services there are ever.
const SERVICES: usize = 256;

/// A service: the domain that exported it, its interface, and who holds a portal to it.
#[derive(Clone, Copy)]
pub struct Service {
    pub owner: DomainId,
    pub interface: ClassId,
    pub holders: DomainFlags,
}

// A portal to a service, with its interface.
#[derive(Clone, Copy)]
pub struct Portal {
    pub service: ServiceId,
    pub interface: ClassId,
}

/// The services by their numbers, from 1, and the names that were bound to them. A domain that has
/// ended holds no portal, and none of its services is found by a name. Only `open` takes memory.
#[derive(Drop)]
pub struct Services {
    services: Vec<Service>,
    ended: DomainFlags,
    names: Names,
}

impl Model for Services {
    ghost use Rattle.portal_table.specs.ServiceLists.{ServicesState};
    ghost use Rattle.portal_table.specs.ServicesInside.{IsServices, services_state};

    ghost Value = { ServicesState };

    ghost view = { services_state };

    ghost invariant = { IsServices };
}

impl Services {
    /// No services yet, with room for names of so many words.
    pub fn open(alloc: Global, words: u32) -> Result<Services, OutOfMemory>
        ensures { IfOk result (λ services. services ≡ record {
          services = [];
          ended = replicate 64 false;
          binds = [];
          words = words;
        }) }
    {
        Ok(Services {
            services: Vec::with_capacity(alloc, SERVICES)?,
            ended: DomainFlags::none(),
            names: Names::open(alloc, words)?,
        })
    }

    /// Makes a service of the domain, to which that alone holds a portal. How many threads it has
    /// is not kept here.
    pub fn export(&mut self, domain: DomainId, interface: ClassId, _threads: u8) -> Reply
        requires { IsDomain domain.0 }
        ensures reply { result ≡ export_reply self.old interface }
        ensures after { self.new ≡ (if nat_lt (length self.old.services) 256
            then record self.old {
              services = self.old.services ++ new_service domain.0 interface ∷ [];
            } else self.old) }
    {
        let made = self.services.len();
        if made >= SERVICES {
            return Reply::Refused(Refusal::TooMany);
        }
        self.services.push_reserved(Service {
            owner: domain,
            interface,
            holders: DomainFlags::only(domain.0),
        });
        Reply::Service(ServiceId(made as u32 + 1), interface)
    }

    // The service of that number.
    fn get(&self, service: ServiceId) -> Option<Service>
        ensures { option_map record_of result ≡ numbered self.now.services service.0 }
    {
        let place = service.0.checked_sub(1)?;
        self.services.get(place as usize).copied()
    }

    /// Whether the domain holds a portal to the service.
    pub fn holds(&self, domain: DomainId, service: ServiceId) -> bool
        ensures { result ≡ holds_in self.now domain.0 service.0 }
    {
        match self.get(service) {
            Some(service) => service.holders.is_set(domain.0),
            None => false,
        }
    }

    /// The domain that exported the service, and its interface. `None` where it wasn't made.
    pub fn owner(&self, service: ServiceId) -> Option<(DomainId, ClassId)>
        ensures owner { option_map (λ o. (o.0.0, o.1)) result ≡ owner_of self.now service.0 }
        ensures made { result ≡ None → numbered self.now.services service.0 ≡ None }
    {
        let service = self.get(service)?;
        Some((service.owner, service.interface))
    }

    /// Gives the domain a portal to the service.
    pub fn hold(&mut self, domain: DomainId, service: ServiceId)
        requires domain { IsDomain domain.0 }
        requires service { IsService self.old service.0 }
        ensures { self.new ≡ with_holder self.old domain.0 service.0 }
    {
        let place = service.0 as usize - 1;
        self.services[place].holders = self.services[place].holders.with(domain.0, true);
    }

    // The portal to a service whose owner has not ended.
    fn live_portal(&self, service: ServiceId) -> Option<Portal>
        ensures service { option_map (λ p. p.service.0) result ≡ live_service self.now service.0 }
        ensures interface { IfSome result (IsPortal self.now) }
    {
        let Service {
            owner,
            interface,
            ..
        } = self.get(service)?;
        if self.ended.is_set(owner.0) {
            return None;
        }
        Some(Portal { service, interface })
    }

    // The portal to the service that the name is bound to, while its owner has not ended.
    fn bound(&self, name: &Text) -> Option<Portal>
        ensures service { option_map (λ p. p.service.0) result ≡ service_bound self.now name.now }
        ensures interface { IfSome result (IsPortal self.now) }
    {
        self.live_portal(self.names.find(name.as_slice())?)
    }

    /// Binds the name to the service. It is refused where the domain holds no portal to it, or where
    /// the name is bound to a service whose owner lives.
    pub fn bind(&mut self, domain: DomainId, name: &Text, service: ServiceId) -> Reply
        requires room { name_words ((name.now, service.0) ∷ self.old.binds) ≤ self.old.words }
        ensures reply { result ≡ bind_reply self.old domain.0 name.now service.0 }
        ensures after { self.new ≡ after_bind self.old domain.0 name.now service.0 }
    {
        if !self.holds(domain, service) {
            return Reply::Refused(Refusal::NotHeld);
        }
        match self.bound(name) {
            Some(_) => Reply::Refused(Refusal::Taken),
            None => {
                self.names.push(name.as_slice(), service);
                Reply::Done
            }
        }
    }

    /// Looks the name up, and gives the domain a portal to the service that it is bound to.
    pub fn lookup(&mut self, domain: DomainId, name: &Text) -> Reply
        requires { IsDomain domain.0 }
        ensures reply { result ≡ lookup_reply self.old name.now }
        ensures after { self.new ≡ after_lookup self.old domain.0 name.now }
    {
        match self.bound(name) {
            Some(portal) => {
                self.hold(domain, portal.service);
                Reply::Service(portal.service, portal.interface)
            }
            None => Reply::NoName,
        }
    }

    /// Notes that the domain has ended: it holds no portals, and its services' names are free.
    pub fn end_domain(&mut self, domain: DomainId)
        requires { IsDomain domain.0 }
        ensures { self.new ≡ without_domain self.old domain.0 }
    {
        self.ended = self.ended.with(domain.0, true);
        for place in 0..self.services.len() {
            self.services[place].holders = self.services[place].holders.with(domain.0, false);
        }
    }
}

//! Entries of exports, binds and lookups.
ghost use Rattle.std.specs.Prelude.{◌≡◌, length};
ghost use Rattle.jx_base.specs.declared.act.Act.TheVariants.{Bind, Export, Lookup};
ghost use Rattle.domain_flags.specs.FlagLists.{IsDomain};
ghost use Rattle.domain_table.specs.DomainLists.{IsLive, IsThreadCount};
ghost use Rattle.portal_table.specs.ServiceLists.{export_reply};
ghost use Rattle.nucleus_tables.specs.Inner.{IsPermittedIn, state_of};
ghost use Rattle.nucleus_tables.specs.Portals.{with_service};
ghost use Rattle.nucleus_tables.specs.Stepping.{IsStepped};

use jx_base::{Act, ClassId, DomainId, Reply, ServiceId, System, Text, ThreadId};
use nucleus_tables::{Step, Tables};

// Makes a service of a live domain, for which so many threads of it are idle.
fn make_service(tables: &mut Tables, domain: DomainId, iface: ClassId, threads: u8) -> Reply
    requires domain { IsDomain domain.0 }
    requires live { IsLive tables.old.domains domain.0 }
    requires count { IsThreadCount threads }
    requires serving { tables.old.domains.services ≡ length tables.old.services.services }
    ensures reply { result ≡ export_reply tables.old.services iface }
    ensures after { tables.new ≡ with_service tables.old domain.0 iface threads result }
{
    match tables.services.export(domain, iface, threads) {
        Reply::Service(service, iface) => {
            tables.domains.serve(domain, service, threads);
            Reply::Service(service, iface)
        }
        reply => reply,
    }
}

/// Enters an export.
pub fn enter_export(
    tables: &mut Tables,
    system: &System,
    domain: DomainId,
    thread: ThreadId,
    iface: ClassId,
    threads: u8,
) -> Step
    requires permitted { IsPermittedIn system.now tables.old domain.0 thread.0
        (Export iface threads) }
    ensures { IsStepped system.now (state_of tables.old) (state_of tables.new) domain.0
        (Export iface threads) result }
{
    let _ = system;
    let reply = make_service(tables, domain, iface, threads);
    tables.put(domain, thread, Act::Export { iface, threads }, reply)
}

/// Enters a bind.
pub fn enter_bind(
    tables: &mut Tables,
    system: &System,
    domain: DomainId,
    thread: ThreadId,
    name: Text,
    service: ServiceId,
) -> Step
    requires permitted { IsPermittedIn system.now tables.old domain.0 thread.0
        (Bind name service) }
    ensures { IsStepped system.now (state_of tables.old) (state_of tables.new) domain.0
        (Bind name service) result }
{
    let _ = system;
    let reply = tables.services.bind(domain, &name, service);
    tables.put(domain, thread, Act::Bind { name, service }, reply)
}

/// Enters a lookup.
pub fn enter_lookup(
    tables: &mut Tables,
    system: &System,
    domain: DomainId,
    thread: ThreadId,
    name: Text,
) -> Step
    requires permitted { IsPermittedIn system.now tables.old domain.0 thread.0 (Lookup name) }
    ensures { IsStepped system.now (state_of tables.old) (state_of tables.new) domain.0
        (Lookup name) result }
{
    let _ = system;
    let reply = tables.services.lookup(domain, &name);
    tables.put(domain, thread, Act::Lookup { name }, reply)
}

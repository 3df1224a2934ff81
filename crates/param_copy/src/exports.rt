//! The exported objects of a domain.
ghost use Rattle.std.specs.Prelude.{◌≡◌, IfOk, option_to_list};
ghost use Rattle.program_model.specs.Parcels.{export_at, reference_of};
ghost use Rattle.param_copy.specs.Exports.{LeadsToLeast, lesser_of};

use indexmap::IndexMap;
use jx_base::{Exported, OutOfMemory, Value};
use std::alloc::Global;
use std::marker::Model;
use std::snapshot::Snapshot;

/// The exports of a domain, of which an object's is found at once. Contracts see the list.
#[derive(Drop)]
pub struct Exports<'a> {
    listed: Snapshot<&'a [Exported]>,
    by_object: IndexMap<u32, Exported>,
}

impl<'a> Model for Exports<'a> {
    ghost use Rattle.std.specs.Prelude.{List};
    ghost use Rattle.jx_base.specs.declared.states.Exported.{Exported as OneExport};
    ghost use Rattle.param_copy.specs.Exports.{LeadsToLeast};

    ghost Value = { List OneExport };

    ghost view = { λ exports. exports.listed.value.now };

    ghost invariant = { λ exports. LeadsToLeast exports.by_object exports.listed.value.now };
}

// Of two exports that with the lesser service, the earlier of two with the same one.
#[tactic(auto, unfolding(program_model::specs::Parcels::lesser_export))]
fn lesser(earlier: Option<Exported>, later: Exported) -> Exported
    ensures { result ≡ lesser_of earlier later }
{
    match earlier {
        Some(export) if export.service.0 <= later.service.0 => export,
        _ => later,
    }
}

// The export of each exported object, that of its least service.
fn least_exports(
    alloc: Global,
    exports: &[Exported],
) -> Result<IndexMap<u32, Exported>, OutOfMemory>
    ensures { IfOk result (λ by_object. LeadsToLeast by_object exports.now) }
{
    let mut by_object = IndexMap::new(alloc);
    for export in exports {
        let earlier = by_object.get(&export.object).copied();
        by_object.insert(export.object, lesser(earlier, *export))?;
    }
    Ok(by_object)
}

impl<'a> Exports<'a> {
    pub fn new(alloc: Global, exports: &'a [Exported]) -> Result<Exports<'a>, OutOfMemory>
        ensures { IfOk result (λ table. table ≡ exports.now) }
    {
        Ok(Exports {
            listed: Snapshot::of(&exports),
            by_object: least_exports(alloc, exports)?,
        })
    }

    /// The export of the object, that of its least service.
    pub fn export_of(&self, object: u32) -> Option<Exported>
        ensures { result ≡ export_at self.now object }
    {
        self.by_object.get(&object).copied()
    }

    /// The object that a value refers to, where it isn't exported.
    pub fn reference_of(&self, value: Value) -> Option<u32>
        ensures { option_to_list result ≡ reference_of self.now value }
    {
        match value {
            Value::Ref(object) => match self.export_of(object) {
                None => Some(object),
                Some(_) => None,
            },
            _ => None,
        }
    }
}

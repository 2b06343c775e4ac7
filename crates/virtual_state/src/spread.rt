//! What a search over the fields of virtual objects reaches.
ghost use Rattle.std.specs.Prelude.{◌≡◌, OnOk};
ghost use Rattle.virtual_state.specs.Inner.Marks.{HasMarked, HasSpread, fields_of};

use crate::marks::MarkedSites;
use crate::table::ObjectTable;
use class_model::NoMemory;

/// Marks each site that is reached from marked ones over fields of the objects of two tables. The time is proportional to
/// the sites that are marked and the fields of their objects.
pub(crate) fn spread(
    sites: &mut MarkedSites,
    one: &ObjectTable,
    other: &ObjectTable,
) -> Result<(), NoMemory>
    ensures { OnOk result (HasSpread sites.old sites.new one.now other.now) }
{
    let mut at = 0;
    while at < sites.len() {
        let site = sites.get(at);
        mark_fields(sites, one, site)?;
        mark_fields(sites, other, site)?;
        at += 1;
    }
    Ok(())
}

// Marks the sites that fields of a site's object name.
fn mark_fields(sites: &mut MarkedSites, objects: &ObjectTable, site: u16) -> Result<(), NoMemory>
    ensures { OnOk result (HasMarked sites.old sites.new (fields_of objects.now site)) }
{
    match objects.get(usize::from(site)) {
        Some(object) => sites.mark_slots(object.get().fields.as_slice()),
        None => Ok(()),
    }
}

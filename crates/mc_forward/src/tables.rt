//! The kernel tables of a router.

ghost use Rattle.std.specs.Prelude.{◌≡◌};
ghost use Rattle.mc_forward.specs.Domains.{VifsValue};

use mc_tables::{CacheTable, VifTable};
use std::marker::Model;

/// The kernel's two tables of a router: its multicast vifs and its forwarding cache.
#[derive(Debug, Drop)]
pub struct Tables {
    /// `/proc/net/ip_mr_vif`.
    pub vifs: VifTable,
    /// `/proc/net/ip_mr_cache`.
    pub cache: CacheTable,
}

impl Model for Tables {
    ghost use Rattle.mc_forward.specs.Domains.{TablesValue};
    ghost use Rattle.mc_forward.specs.DomainParts.{tables_code};

    ghost Value = { TablesValue };

    ghost coded = { tables_code };

    ghost view = { λ t. record { vifs = t.vifs; cache = t.cache } };
}

/// What has the vifs of a router.
pub(crate) trait HasVifs {
    // the vifs
    ghost vifs_of: { Self → VifsValue };

    /// The vifs.
    fn vif_table(&self) -> &VifTable
        ensures { result.now ≡ vifs_of self.now };
}

impl HasVifs for Tables {
    ghost vifs_of = { λ tables. tables.vifs };

    fn vif_table(&self) -> &VifTable {
        &self.vifs
    }
}

impl HasVifs for VifTable {
    ghost vifs_of = { λ vifs. vifs };

    fn vif_table(&self) -> &VifTable {
        self
    }
}

//! Devices of vifs as JSON.

ghost use Rattle.std.specs.Prelude.{◌≡◌, IfOk};
ghost use Rattle.std.specs.String.{string_bytes};
ghost use Rattle.serde_json.specs.View.{view as data_of};
ghost use Rattle.mc_forward.specs.ListedTables.{facts};
ghost use Rattle.mc_shown.specs.RowText.{device_name_text};
ghost use Rattle.mc_json.specs.RowData.{device_data};

use mc_forward::FlowView;
use mc_shown::ShownDeviceName;
use mc_topology::RouterNo;
use serde_json::Value;
use std::alloc::{AllocError, Global};

/// A device's name, such as `eth1`, escaped as `ShownDeviceName` writes it.
///
/// # Errors
///
/// `AllocError` if an allocation fails.
pub fn device_name(alloc: Global, name: &[u8]) -> Result<String, AllocError>
    ensures { IfOk result (λ text. string_bytes text ≡ device_name_text name.now) }
{
    let name = ShownDeviceName { name };
    format!(in alloc; "{name}")
}

/// The device of a router's vif, or null if its table has no line for it.
///
/// # Errors
///
/// `AllocError` if an allocation fails.
pub fn device_value(
    alloc: Global,
    view: &FlowView<'_>,
    router: RouterNo,
    vif: u8,
) -> Result<Value, AllocError>
    ensures { IfOk result (λ value. data_of value ≡ device_data (facts view.now.domain) router vif) }
{
    match view.vif(router, vif) {
        Some(line) => Ok(Value::String(device_name(alloc, line.device())?)),
        None => Ok(Value::Null),
    }
}

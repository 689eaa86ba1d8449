//! Reads the routers.

ghost use Rattle.std.specs.Prelude.{◌≡◌, ◌≢◌, ◌≤◌, length, false, Err, IfOk, option_map};
ghost use Rattle.toml.specs.View.{view, table_view};
ghost use Rattle.mc_topology.specs.declared.fault.Section.TheVariants as section;
ghost use Rattle.mc_topology.specs.Answer.{out_of_memory};
ghost use Rattle.mc_topology.specs.Routers.{order_of, router_of, routers_in};
ghost use Rattle.mc_topology.specs.Lookup.{has_router};

use crate::fault::{Section, TopologyFault, TopologyFaultKind, locate_fault};
use crate::name::is_name;
use crate::read::document::{known_table, optional_text_at, rows_at, text_at};
use crate::read::rows::{SectionRows, each_row};
use crate::routers::{MAX_ROUTERS, Routers};
use mc_text::Order;
use std::alloc::Global;
use std::marker::Model;
use toml::{Table, Value};

/// A router whose name is borrowed from the table that it is read from.
#[derive(Drop)]
struct BorrowedRouter<'a> {
    name: &'a str,
    order: Order,
}

impl<'a> Model for BorrowedRouter<'a> {
    ghost use Rattle.mc_topology.specs.SectionRows.{RouterRow};

    ghost Value = { RouterRow };

    ghost view = { λ r. record { name = r.name.now; order = r.order } };
}

/// The byte order that a text names, little where there is none.
#[tactic(auto, unfolding(crate::specs::Routers::order_of))]
fn order_of(text: Option<&str>) -> Result<Order, TopologyFaultKind>
    ensures { result ≡ order_of (option_map (λ t. t.now) text.entry) }
{
    match text {
        None | Some("little") => Ok(Order::Little),
        Some("big") => Ok(Order::Big),
        Some(_) => Err(TopologyFaultKind::BadKind),
    }
}

/// Reads a router, whose name no earlier router has.
#[tactic(auto, unfolding(crate::specs::Routers::router_of))]
fn router_of<'a>(
    earlier: &Routers,
    value: &'a Value,
) -> Result<BorrowedRouter<'a>, TopologyFaultKind>
    ensures router { result ≡ router_of earlier.now (view value.now) }
    ensures new { IfOk result (λ row. has_router row.name earlier.now ≡ false) }
{
    let table = known_table(value, &["name", "order"])?;
    let name = text_at(table, "name")?;
    let order_text = optional_text_at(table, "order")?;
    if !is_name(name) {
        return Err(TopologyFaultKind::BadName);
    }
    let order = order_of(order_text)?;
    if earlier.has(name) {
        return Err(TopologyFaultKind::RepeatedName);
    }
    Ok(BorrowedRouter { name, order })
}

impl SectionRows<()> for Routers {
    ghost use Rattle.mc_topology.specs.SectionRows.{RouterRow};

    ghost Row = { RouterRow };

    ghost rows = { λ routers. routers };

    ghost section = { section.Router };

    ghost row_value = { λ _. router_of };

    fn read_row(
        &mut self,
        alloc: Global,
        _before: &(),
        number: u32,
        row: &Value,
    ) -> Result<(), TopologyFault> {
        let router = locate_fault(Section::Router, number, router_of(self, row))?;
        self.push(alloc, router.name, router.order)
    }
}

/// Reads the routers, in order.
#[tactic(auto, unfolding(crate::specs::Routers::routers_in))]
pub(crate) fn routers_in(alloc: Global, table: &Table) -> Result<Routers, TopologyFault>
    ensures routers { result ≢ Err out_of_memory → result ≡ routers_in (table_view table.now) }
    ensures few { IfOk result (λ routers. length routers ≤ MAX_ROUTERS) }
{
    let rows = locate_fault(Section::Router, 0, rows_at(table, "router", MAX_ROUTERS))?;
    each_row(alloc, &(), Routers::new(alloc), rows)
}

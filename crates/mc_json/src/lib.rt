//! The report of an audit as JSON, one object a line, but for the lines of flows with a finding; and
//! the values of which these are built.
#![tactic(auto)]

mod asked_lines;
mod device_values;
mod domain_line;
mod end_lines;
mod fields;
mod fields_of_flow;
mod found_value;
mod interface_list;
pub mod laws;
mod line;
mod name_values;
mod right_line;
mod row_values;
mod tree_keys;

pub use asked_lines::{push_asked_line, push_asked_more_line, push_asked_services_line};
pub use device_values::{device_name, device_value};
pub use domain_line::push_domain_line;
pub use end_lines::{push_summary_line, push_unlisted_lines, push_verdict_line, push_without_line};
pub use fields::Fields;
pub use fields_of_flow::flow_fields;
pub use found_value::{event_values, finding_value, optional_finding_value};
pub use line::push_line;
pub use name_values::{lan_names, router_names};
pub use right_line::{RightFlow, push_right_line, push_tree_line};
pub use row_values::{every_source_value, incoming_device, incoming_vif, row_value};
pub use tree_keys::tree_key;

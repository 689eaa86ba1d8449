//! How an audit shows names, devices and rows in a line, and its lists: what hosts ask for, what is
//! forwarded and not listed, which LANs want a flow, and which routers are excluded.
#![tactic(auto)]

mod asked;
mod device_text;
mod every_source_row;
mod excluded;
pub mod laws;
mod row_text;
mod shown_names;
mod unlisted;
mod wanted;

pub use asked::{AskedLine, RoutersByState, push_asked, push_asked_more, push_asked_services};
pub use device_text::{ShownDevice, ShownDeviceName};
pub use every_source_row::ShownEverySource;
pub use excluded::{list_excluded_routers, push_excluded_routers, push_verdict_reason};
pub use row_text::{ShownIncoming, ShownRow};
pub use shown_names::{ShownLans, ShownMore, ShownRouters};
pub use unlisted::{UnlistedPair, UnlistedPairs, push_unlisted};
pub use wanted::{lans_wanting, missed_besides, push_also_missed, push_wanted};

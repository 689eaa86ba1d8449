//! What hosts ask for and no flow answers.

mod asked_text;
mod routers_by_state;

pub use asked_text::{AskedLine, push_asked, push_asked_more, push_asked_services};
pub use routers_by_state::RoutersByState;

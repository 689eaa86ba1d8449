//! A small network and its certificate in both versions: a source on l0, r1 between l0 and l1, and r2
//! between l1 and l2.

pub(super) const NETWORK: &str = r#"version = 1
lans = ["l0", "l1", "l2"]
router = [{name = "r1"}, {name = "r2"}]
source = [{address = "10.0.0.5", lan = "l0"}]
flow = [{source = "10.0.0.5", group = "239.1.2.3", ttl = 3}]
"#;

/// The same network with a second flow from the same source.
pub(super) const TWO_FLOWS: &str = r#"version = 1
lans = ["l0", "l1", "l2"]
router = [{name = "r1"}, {name = "r2"}]
source = [{address = "10.0.0.5", lan = "l0"}]
flow = [{source = "10.0.0.5", group = "239.1.2.3", ttl = 3}, {source = "10.0.0.5", group = "239.1.2.4", ttl = 3}]
"#;

/// The network's certificate in version 1.
pub(super) const VERSION_ONE: &str = concat!(
    r#"{"flows":[{"group":"239.1.2.3","reached":[{"lan":"l0","need":1,"rank":0},"#,
    r#"{"lan":"l1","need":2,"rank":1,"router":"r1","vif":1},"#,
    r#"{"lan":"l2","need":3,"rank":2,"router":"r2","vif":1}],"source":"10.0.0.5"}],"version":1}"#
);

/// The same in version 2.
pub(super) const VERSION_TWO: &str = concat!(
    r#"{"flows":[{"group":"239.1.2.3","source":"10.0.0.5","tree":0}],"trees":[[{"lan":"l0","need":1,"rank":0},"#,
    r#"{"lan":"l1","need":2,"rank":1,"router":"r1","vif":1},"#,
    r#"{"lan":"l2","need":3,"rank":2,"router":"r2","vif":1}]],"version":2}"#
);

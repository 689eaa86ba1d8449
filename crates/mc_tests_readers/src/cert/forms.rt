//! Certificates that are not in the form that they are written in: with white space, with keys in other
//! orders or twice, and with escapes.

use super::network::{NETWORK, TWO_FLOWS};
use super::written::check_blocks;

/// Certificates of NETWORK: of each block a comment, a text, and how its certificate is written.
const OF_ONE_FLOW: &str = r#"# white space between all tokens, in version 1
 { "flows" : [ { "group" : "239.1.2.3" , "reached" : [ { "lan" : "l0" , "need" : 1 , "rank" : 0 } , {  "lan":"l1",  "need":2, "rank":1, "router":"r1", "vif":1 } ] , "source" : "10.0.0.5" } ] , "version" : 1 }  
{"flows":[{"group":"239.1.2.3","source":"10.0.0.5","tree":0}],"trees":[[{"lan":"l0","need":1,"rank":0},{"lan":"l1","need":2,"rank":1,"router":"r1","vif":1}]],"version":2}

# white space between all tokens, in version 2
  { "flows" : [ { "group" : "239.1.2.3" , "source" : "10.0.0.5" , "tree" : 0 } ] , "trees" : [ [ { "lan" : "l0" , "need" : 1 , "rank" : 0 } ] ] , "version" : 2 } 
{"flows":[{"group":"239.1.2.3","source":"10.0.0.5","tree":0}],"trees":[[{"lan":"l0","need":1,"rank":0}]],"version":2}

# the keys of version 1 in another order
{"version":1,"flows":[{"source":"10.0.0.5","reached":[{"vif":31,"router":"r2","rank":255,"need":254,"lan":"l2"}],"group":"239.1.2.3"}]}
{"flows":[{"group":"239.1.2.3","source":"10.0.0.5","tree":0}],"trees":[[{"lan":"l2","need":254,"rank":255,"router":"r2","vif":31}]],"version":2}

# the keys of version 2 in another order
{"version":2,"trees":[[{"vif":0,"router":"r1","rank":0,"need":255,"lan":"l1"}]],"flows":[{"tree":0,"source":"10.0.0.5","group":"239.1.2.3"}]}
{"flows":[{"group":"239.1.2.3","source":"10.0.0.5","tree":0}],"trees":[[{"lan":"l1","need":255,"rank":0,"router":"r1","vif":0}]],"version":2}

# of an entry's keys that come twice the last ones count
{"flows":[{"group":"239.1.2.3","source":"10.0.0.5","tree":0}],"trees":[[{"lan":"l0","need":9,"lan":"l1","rank":0,"router":"r2","vif":1,"need":1,"rank":3,"vif":2,"router":"r1"}]],"version":2}
{"flows":[{"group":"239.1.2.3","source":"10.0.0.5","tree":0}],"trees":[[{"lan":"l1","need":1,"rank":3,"router":"r1","vif":2}]],"version":2}

# of a flow's keys that come twice the last ones count
{"flows":[{"group":"239.1.2.9","reached":[{"lan":"l0","need":1,"rank":0}],"source":"10.0.0.9","reached":[],"source":"10.0.0.5","group":"239.1.2.3"}],"version":1}
{"flows":[{"group":"239.1.2.3","source":"10.0.0.5","tree":0}],"trees":[[]],"version":2}

# of the keys that come twice in the whole the last ones count
{"trees":[],"version":2,"flows":[{"group":"239.1.2.3","source":"10.0.0.5","tree":1}],"trees":[[]],"flows":[{"group":"239.1.2.3","source":"10.0.0.5","tree":0}],"version":2}
{"flows":[{"group":"239.1.2.3","source":"10.0.0.5","tree":0}],"trees":[[]],"version":2}

# an earlier value of a key may be anything
{"version":"no","flows":[{"group":[],"source":"10.0.0.5","tree":-1.5e3,"tree":0,"group":"239.1.2.3"}],"trees":{"a":[null]},"trees":[[{"lan":5,"lan":"l0","need":0,"need":1,"rank":0}]],"version":2}
{"flows":[{"group":"239.1.2.3","source":"10.0.0.5","tree":0}],"trees":[[{"lan":"l0","need":1,"rank":0}]],"version":2}

# escapes in keys and texts
{"\u0066lows":[{"gro\u0075p":"239.1.2.\u0033","source":"\u00310.0.0.5","tree":0}],"trees":[[{"l\u0061n":"\u006c0","need":1,"rank":0}]],"versio\u006e":2}
{"flows":[{"group":"239.1.2.3","source":"10.0.0.5","tree":0}],"trees":[[{"lan":"l0","need":1,"rank":0}]],"version":2}"#;

/// The same for TWO_FLOWS.
const OF_TWO_FLOWS: &str = r#"# trees before the flows that name them
{"trees":[[],[{"lan":"l0","need":1,"rank":0}]],"flows":[{"group":"239.1.2.3","source":"10.0.0.5","tree":1},{"group":"239.1.2.4","source":"10.0.0.5","tree":0}],"version":2}
{"flows":[{"group":"239.1.2.3","source":"10.0.0.5","tree":0},{"group":"239.1.2.4","source":"10.0.0.5","tree":1}],"trees":[[{"lan":"l0","need":1,"rank":0}],[]],"version":2}

# each flow's own entries, behind a space
 {"flows":[{"group":"239.1.2.3","reached":[],"source":"10.0.0.5"},{"group":"239.1.2.4","reached":[{"lan":"l0","need":1,"rank":0}],"source":"10.0.0.5"}],"version":1}
{"flows":[{"group":"239.1.2.3","source":"10.0.0.5","tree":0},{"group":"239.1.2.4","source":"10.0.0.5","tree":1}],"trees":[[],[{"lan":"l0","need":1,"rank":0}]],"version":2}"#;

#[test]
fn certificates_are_read_in_any_form(rt: HostRuntime) {
    check_blocks(&rt, rt.alloc(), NETWORK, OF_ONE_FLOW);
    check_blocks(&rt, rt.alloc(), TWO_FLOWS, OF_TWO_FLOWS);
}

//! Texts of a router's tables, and of reports.

/// A router's vifs: 0 is eth0 and 1 is eth1.
pub(crate) const VIFS: &str = "Interface BytesIn PktsIn BytesOut PktsOut Flags Local Remote
0 eth0 0 0 0 0 00000 00000000 00000000
1 eth1 0 0 0 0 00000 00000000 00000000
";

/// The first line of a cache.
pub(super) const CACHE_HEADER: &str = "Group Origin Iif Pkts Bytes Wrong Oifs\n";

/// The cache of a router that forwards the flow from vif 0 to vif 1, with a threshold of 1.
const CACHE: &str = "Group Origin Iif Pkts Bytes Wrong Oifs
030201EF 0500000A 0 0 0 0 1:1
";

/// Both tables of a router that forwards the flow from vif 0 to vif 1.
pub(crate) const FORWARDS: (&str, &str) = (VIFS, CACHE);

/// A report that wants all sources of 239.1.2.3.
pub(crate) const WANTED: &str = "2200eaf90000000102000000ef010203\n";

/// The reports of three LANs, of which only the last wants the group.
pub(crate) const LAST_WANTS: &[&str] = &["", "", WANTED];

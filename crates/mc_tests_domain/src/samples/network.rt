//! The texts of topologies.

use std::alloc::{AllocError, Global};

/// A topology in short texts, with `; ` between two LANs, routers, interfaces, hosts or flows.
#[derive(Clone, Copy, Drop)]
pub(crate) struct Network<'a> {
    /// The names of the LANs.
    pub(crate) lans: &'a str,
    /// The names of the routers.
    pub(crate) routers: &'a str,
    /// The interfaces, each by its router, its device and its LAN.
    pub(crate) interfaces: &'a str,
    /// The hosts that send, each by its address and its LAN.
    pub(crate) sources: &'a str,
    /// The flows, each by the address of its source, its group and its least TTL.
    pub(crate) flows: &'a str,
}

/// LANs l0 to l2, r1 from l0 to l1, r2 from l1 to l2, and a flow from l0.
pub(crate) const CHAIN: Network<'static> = Network {
    lans: "l0; l1; l2",
    routers: "r1; r2",
    interfaces: "r1 eth0 l0; r1 eth1 l1; r2 eth0 l1; r2 eth1 l2",
    sources: "10.0.0.5 l0",
    flows: "10.0.0.5 239.1.2.3 3",
};

/// Appends a form, with each `_` replaced by the next of the words.
fn push_filled(text: &mut String, form: &str, words: &str) -> Result<(), AllocError> {
    let mut words = words.split(' ');
    for piece in form.split('_') {
        text.push_str(piece)?;
        text.push_str(words.next().unwrap_or_default())?;
    }
    Ok(())
}

/// Appends a list, each of its parts in this form.
fn push_list(text: &mut String, list: &str, form: &str, parts: &str) -> Result<(), AllocError> {
    text.push_str(list)?;
    for part in parts.split("; ") {
        push_filled(text, form, part)?;
    }
    text.push_str("]\n")
}

impl Network<'_> {
    /// Appends the topology's lists.
    fn push_lists(&self, text: &mut String) -> Result<(), AllocError> {
        push_list(text, "lans = [\n", "\"_\",\n", self.lans)?;
        push_list(text, "router = [\n", "{name = \"_\"},\n", self.routers)?;
        push_list(
            text,
            "interface = [\n",
            "{router = \"_\", device = \"_\", lan = \"_\"},\n",
            self.interfaces,
        )?;
        push_list(
            text,
            "source = [\n",
            "{address = \"_\", lan = \"_\"},\n",
            self.sources,
        )?;
        push_list(
            text,
            "flow = [\n",
            "{source = \"_\", group = \"_\", ttl = _},\n",
            self.flows,
        )
    }

    /// The topology's text.
    pub(crate) fn text(&self, alloc: Global) -> Result<String, AllocError> {
        let mut text = String::from_str(alloc, "version = 1\n")?;
        self.push_lists(&mut text)?;
        Ok(text)
    }
}

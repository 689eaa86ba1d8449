//! Excluded routers: which they are, and what is read in place of their files.

ghost use Rattle.std.specs.Prelude.{◌≡◌, ◌≤◌, false, true, IfErr, IfSome, length, option_map};
ghost use Rattle.std.specs.List.{list_any};
ghost use Rattle.std.specs.Str.{bytes_eq};
ghost use Rattle.mc_input.specs.ExcludedRouters.{check_router_names, header_of_excluded};
ghost use Rattle.mc_input.specs.ExcludedRouters.{is_possible_for_files_without, is_read_without};
ghost use Rattle.mc_input.specs.ExcludedRouters.{names_of};

use crate::exclusion_fault::ExclusionFault;
use mc_topology::Topology;

/// The header of a kernel's table of vifs.
const VIF_HEADER: &[u8] =
    b"Interface      BytesIn  PktsIn  BytesOut PktsOut Flags Local    Remote\n";

/// That of its forwarding cache.
const CACHE_HEADER: &[u8] = b"Group    Origin   Iif     Pkts    Bytes    Wrong Oifs\n";

/// Whether a router's name is one of the excluded ones.
pub fn is_excluded(without: &[&str], router: &str) -> bool
    ensures { result ≡
        list_any (λ name. bytes_eq name router.now) (names_of without.now) }
{
    without.iter().any(|name| *name == router)
}

/// The header of a router's table, of vifs or of its forwarding cache, if its name is one of these.
pub(crate) fn header_of_excluded(
    without: &[&str],
    router: &str,
    vifs: bool,
) -> Option<&'static [u8]>
    ensures header { option_map (λ header. header.now) result
        ≡ header_of_excluded (names_of without.now) router.now vifs }
    ensures small { IfSome result (λ header. length header.now ≤ 100) }
{
    if !is_excluded(without, router) {
        return None;
    }
    if vifs {
        Some(VIF_HEADER)
    } else {
        Some(CACHE_HEADER)
    }
}

/// Refuses the first of the names that no router of the topology has, by its place, counted from 1.
pub(crate) fn check_names(topology: &Topology, without: &[&str]) -> Result<(), ExclusionFault>
    ensures names { result ≡ check_router_names topology.now 1 (names_of without.now) }
    ensures fault { IfErr result (λ fault. is_read_without fault ≡ false) }
    ensures faults { IfErr result (λ fault. is_possible_for_files_without fault ≡ true) }
{
    for place in 0..without.len() {
        if topology.router_no(without[place]).is_none() {
            let number = (place + 1).min(u32::MAX as usize);
            return Err(ExclusionFault::NoSuchRouter(number as u32));
        }
    }
    Ok(())
}

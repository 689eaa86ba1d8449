//! The routers by what they have for a want.

ghost use Rattle.std.specs.Prelude.{◌≡◌, ◌<◌, ◌^◌, IfOk, length};
ghost use Rattle.mc_asked.specs.Forwarding.{is_same_state, routers_in};
ghost use Rattle.mc_asked.specs.declared.forwarding.RouterState.TheVariants.{EverySource, Forwards, NoneOut};

use mc_asked::RouterState;
use mc_text::Memory;
use mc_topology::RouterNo;
use std::alloc::Global;

/// The routers that have something for a want, each list in the topology's order.
#[derive(Debug, Drop)]
pub struct RoutersByState {
    /// Those with an entry that counts and goes out to a LAN.
    pub forwards: Vec<RouterNo>,
    /// Those with an entry that counts, and none that goes out to a LAN.
    pub none_out: Vec<RouterNo>,
    /// Those that only have entries for every source.
    pub every_source: Vec<RouterNo>,
}

/// Whether two states are the same.
fn is_same_state(state: RouterState, other: RouterState) -> bool
    ensures { result ≡ is_same_state state other }
{
    matches!(
        (state, other),
        (RouterState::Nothing, RouterState::Nothing)
            | (RouterState::EverySource, RouterState::EverySource)
            | (RouterState::NoneOut, RouterState::NoneOut)
            | (RouterState::Forwards, RouterState::Forwards)
    )
}

/// The routers that are in a state, by the state of each.
fn routers_in(
    alloc: Global,
    state: RouterState,
    states: &[RouterState],
) -> Result<Vec<RouterNo>, Memory>
    requires few { length states.now < 2 ^ 32 }
    ensures { IfOk result (λ routers. routers.items ≡ routers_in state states.now) }
{
    let mut routers = Vec::new(alloc);
    for router in 0..states.len() {
        if is_same_state(state, states[router]) {
            routers.push(RouterNo(router as u32))?;
        }
    }
    Ok(routers)
}

impl RoutersByState {
    /// The routers by the state of each, in the topology's order.
    ///
    /// # Errors
    ///
    /// `Memory` if an allocation is refused.
    pub fn of(alloc: Global, states: &[RouterState]) -> Result<RoutersByState, Memory>
        requires few { length states.now < 2 ^ 32 }
        ensures forwards { IfOk result (λ by_state.
            by_state.forwards.items ≡ routers_in Forwards states.now) }
        ensures none_out { IfOk result (λ by_state.
            by_state.none_out.items ≡ routers_in NoneOut states.now) }
        ensures every_source { IfOk result (λ by_state.
            by_state.every_source.items ≡ routers_in EverySource states.now) }
    {
        Ok(RoutersByState {
            forwards: routers_in(alloc, RouterState::Forwards, states)?,
            none_out: routers_in(alloc, RouterState::NoneOut, states)?,
            every_source: routers_in(alloc, RouterState::EverySource, states)?,
        })
    }
}

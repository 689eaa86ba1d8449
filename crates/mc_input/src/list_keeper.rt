//! What is kept of the LANs' lists of reports beside which flows each LAN wants: nothing, or what hosts ask
//! for.

ghost use Rattle.std.specs.Prelude.{◌≡◌, ◌++◌, ◌∷◌, [], Bool, List, OnOk, false, length};
ghost use Rattle.mc_igmp.specs.declared.record.Record.{Record};
ghost use Rattle.mc_topology.specs.declared.flow.Flow.{Flow};
ghost use Rattle.mc_filter.specs.ChannelWants.{AreAllAskedFor};
ghost use Rattle.mc_forward.specs.Assembling.{AreChannelsWanted};
ghost use Rattle.mc_forward.specs.ListedTables.{flow_pairs};
ghost use Rattle.mc_asked.specs.Answers.{AnswersValue};

use mc_asked::{LanWants, WantAnswers};
use mc_filter::ChannelWants;
use mc_igmp::ReportList;
use mc_text::Memory;
use mc_topology::{LanNo, Topology};
use std::alloc::Global;

/// What is shown the LANs' lists one after another, and may keep something of each.
pub(crate) trait ListKeeper {
    // it is made for a topology with these flows
    ghost is_ready: { Self → List Flow → Type 0 };

    // whether it keeps all wants, and what answers them
    ghost settings: { Self → Bool × AnswersValue };

    // what it has kept is of these lists, the first of which is that of LAN 0
    ghost has_kept: { Self → List (List Record) → Type 0 };

    /// Keeps something of the list of the next LAN. `wants` says of each flow whether the list wants it, and
    /// whether it may ask for something else.
    fn keep_list(
        &mut self,
        alloc: Global,
        topology: &Topology,
        lan: LanNo,
        list: &ReportList,
        wants: &ChannelWants,
    ) -> Result<(), Memory>
        requires ready { is_ready self.old topology.now.flows }
        requires wanted { AreChannelsWanted (flow_pairs topology.now.flows) list.now wants.now.wanted.items }
        requires all { wants.now.asks_more ≡ false →
            AreAllAskedFor (flow_pairs topology.now.flows) list.now }
        ensures ready { is_ready self.new topology.now.flows }
        ensures settings { settings self.new ≡ settings self.old }
        ensures kept { (lists : List (List Record)) → OnOk result (length lists ≡ lan →
            has_kept self.old lists → has_kept self.new (lists ++ list.now ∷ [])) };
}

/// Keeps nothing.
#[derive(Drop)]
pub(crate) struct NoLists;

impl ListKeeper for NoLists {
    ghost use Rattle.std.specs.Prelude.{⊤, [], false};

    ghost is_ready = { λ _ _. ⊤ };

    ghost settings = { λ _. (false, record { flows = []; sources = []; ignored = [] }) };

    ghost has_kept = { λ _ _. ⊤ };

    fn keep_list(
        &mut self,
        _alloc: Global,
        _topology: &Topology,
        _lan: LanNo,
        _list: &ReportList,
        _wants: &ChannelWants,
    ) -> Result<(), Memory> {
        Ok(())
    }
}

/// Keeps what the hosts of each LAN ask for and no flow answers.
#[derive(Drop)]
pub(crate) struct WantKeeper {
    /// What answers wants.
    pub(crate) answers: WantAnswers,
    /// Whether all wants are kept, or of each LAN the lowest ones.
    pub(crate) all: bool,
    /// What is kept, LAN by LAN.
    pub(crate) wants: Vec<LanWants>,
}

impl ListKeeper for WantKeeper {
    ghost use Rattle.mc_asked.specs.AskedLines.{lan_wants_from};
    ghost use Rattle.mc_forward.specs.ListedTables.{flow_pairs};

    ghost is_ready = { λ s flows. s.answers.flows ≡ flow_pairs flows };

    ghost settings = { λ s. (s.all, s.answers) };

    ghost has_kept = { λ s lists. s.wants.items ≡ lan_wants_from s.all s.answers 0 lists };

    fn keep_list(
        &mut self,
        alloc: Global,
        _topology: &Topology,
        lan: LanNo,
        list: &ReportList,
        wants: &ChannelWants,
    ) -> Result<(), Memory> {
        let own = self.answers.lan_wants(alloc, lan, list, wants, self.all)?;
        self.wants.push(own)?;
        Ok(())
    }
}

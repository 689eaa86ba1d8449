//! The wants of a LAN's list by their classes.

ghost use Rattle.std.specs.Prelude.{◌≡◌, ◌∷◌, ◌++◌, [], IfOk, List, OnOk, if◌then◌else◌, length};
ghost use Rattle.mc_igmp.specs.declared.record.Record.{Record};
ghost use Rattle.mc_asked.specs.Indexes.{AreFlowsWanted, IsIndexOfWantedGroups};
ghost use Rattle.mc_asked.specs.ClassifiedWants.{IsClassified};
ghost use Rattle.mc_asked.specs.ClassifiedWants.{is_asked_class, is_service_class};
ghost use Rattle.mc_asked.specs.ListWants.{wants_in};

use crate::answers::WantAnswers;
use crate::unanswered::{index_of_wanted_groups, unanswered_in};
use crate::want_class::WantClass;
use crate::wants::wants_among;
use mc_igmp::ReportList;
use mc_text::{Addr, Index, Memory};
use mc_topology::LanNo;
use std::alloc::{AllocError, Global};

/// Wants by their classes.
#[derive(Debug, Drop)]
pub(crate) struct ClassifiedWants {
    /// Those that nothing answers.
    pub(crate) asked: Vec<(Addr, Addr)>,
    /// The group of each that is a service's.
    pub(crate) services: Vec<Addr>,
}

impl ClassifiedWants {
    /// None of any class.
    pub(crate) fn none(alloc: Global) -> ClassifiedWants
        ensures asked { result.asked.items ≡ [] }
        ensures services { result.services.items ≡ [] }
    {
        ClassifiedWants {
            asked: Vec::new(alloc),
            services: Vec::new(alloc),
        }
    }

    /// Adds a want of this class.
    fn add(&mut self, class: WantClass, want: &(Addr, Addr)) -> Result<(), AllocError>
        ensures asked { OnOk result (self.new.asked.items
            ≡ self.old.asked.items ++ (if is_asked_class class then want.now ∷ [] else [])) }
        ensures services { OnOk result (self.new.services.items
            ≡ self.old.services.items ++ (if is_service_class class then want.now.0 ∷ [] else [])) }
    {
        match class {
            WantClass::Asked => self.asked.push(*want)?,
            WantClass::Service => self.services.push(want.0)?,
            WantClass::Answered | WantClass::OnLan | WantClass::Ignored => {}
        }
        Ok(())
    }
}

/// These wants of a LAN's list by their classes.
fn classify(
    alloc: Global,
    answers: &WantAnswers,
    lan: LanNo,
    wanted_groups: &Index,
    wants: &[(Addr, Addr)],
) -> Result<ClassifiedWants, AllocError>
    ensures { IfOk result (λ classified. (records : List Record) →
        IsIndexOfWantedGroups answers.now.flows records wanted_groups.now →
        IsClassified answers.now lan records wants.now classified) }
{
    let mut classified = ClassifiedWants::none(alloc);
    for want in wants {
        let class = answers.class_of(lan, wanted_groups, want);
        classified.add(class, want)?;
    }
    Ok(classified)
}

impl WantAnswers {
    /// The wants of a LAN's list by their classes. `wanted` says of each flow whether the list wants it.
    pub(crate) fn classified_wants(
        &self,
        alloc: Global,
        lan: LanNo,
        list: &ReportList,
        wanted: &[bool],
    ) -> Result<ClassifiedWants, Memory>
        requires count { length wanted.now ≡ length self.now.flows }
        requires each { AreFlowsWanted self.now.flows list.now wanted.now }
        ensures { IfOk result (IsClassified self.now lan list.now (wants_in list.now)) }
    {
        let wanted_groups = index_of_wanted_groups(alloc, self.flows(), wanted)?;
        let unanswered = unanswered_in(alloc, self, &wanted_groups, list)?;
        let wants = wants_among(alloc, list, unanswered)?;
        let classified = classify(alloc, self, lan, &wanted_groups, &wants)?;
        Ok(classified)
    }
}

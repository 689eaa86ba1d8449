//! Interfaces by which copies leave the known domain, of which the first 8 are shown.

ghost use Rattle.std.specs.Prelude.{◌≡◌, Some, take};
ghost use Rattle.mc_forward.specs.ListedTables.{facts};
ghost use Rattle.mc_lines.specs.BehindText.{leak_text, leaks_text};

use mc_forward::{FlowView, Stray};
use mc_shown::{ShownDevice, ShownMore};
use std::fmt;

/// How many interfaces are shown after the first one at most.
const MAX_SHOWN_AFTER_FIRST: usize = 7;

/// The first 7 of a list.
fn first_seven<N>(list: &[N]) -> &[N]
    ensures { result.now ≡ take 7 list.now }
{
    if list.len() > MAX_SHOWN_AFTER_FIRST {
        &list[..MAX_SHOWN_AFTER_FIRST]
    } else {
        list
    }
}

/// An interface, such as `r1 eth1`.
#[derive(Clone, Copy, Drop)]
struct ShownLeak<'v> {
    /// A flow of the domain.
    view: &'v FlowView<'v>,
    /// The interface.
    stray: Stray,
}

impl<'v> fmt::Display for ShownLeak<'v> {
    ghost output = { λ shown. Some (leak_text (facts shown.view.now.domain) shown.stray) };

    fn fmt<W: fmt::Write>(&self, f: &mut fmt::Formatter<W>) -> fmt::Result {
        let router = self.view.topology().router_name_or_empty(self.stray.router);
        let device = ShownDevice {
            view: self.view,
            router: self.stray.router,
            vif: self.stray.vif,
        };
        write!(f, "{router} {device}")
    }
}

/// The first interfaces of a list, such as ` r1 eth1, r2 eth2`, and how many more there are.
#[derive(Clone, Copy, Drop)]
pub(crate) struct ShownLeaks<'v> {
    /// A flow of the domain.
    pub(crate) view: &'v FlowView<'v>,
    /// The list.
    pub(crate) strays: &'v [Stray],
}

impl<'v> fmt::Display for ShownLeaks<'v> {
    ghost output = { λ shown. Some (leaks_text (facts shown.view.now.domain) shown.strays.now) };

    fn fmt<W: fmt::Write>(&self, f: &mut fmt::Formatter<W>) -> fmt::Result {
        let view = self.view;
        let Some((first, others)) = self.strays.split_first() else {
            return Ok(());
        };
        let leak = ShownLeak {
            view,
            stray: *first,
        };
        write!(f, " {leak}")?;
        for stray in first_seven(others) {
            let leak = ShownLeak {
                view,
                stray: *stray,
            };
            write!(f, ", {leak}")?;
        }
        let more = ShownMore::after(MAX_SHOWN_AFTER_FIRST, others.len());
        write!(f, "{more}")
    }
}

ghost use Rattle.std.specs.Prelude.{◌≡◌, ℕ, [], IfOk, MatchOption};
ghost use Rattle.proof_report.specs.Terms.{AreCharged};
ghost use Rattle.outside_io.specs.declared.status.Status.{Status};
ghost use Rattle.people_plans.specs.PlansForPeople.{IsFirstFreeLink, free_link_message};

use crate::answer::PlanAnswer;
use net_core::{Bytes, Link, List, NoMemory};
use outside_io::Status;
use proof_report::are_dear;
use std::alloc::Global;

/// The first link with a module that costs nothing.
pub(crate) fn first_free(links: &[Link]) -> Option<&Link>
    ensures { MatchOption result (AreCharged links.now) (λ l. (e : ℕ) × IsFirstFreeLink links.now e l.now) }
{
    for link in links {
        if !are_dear(link.modules.items()) {
            return Some(link);
        }
    }
    None
}

/// What is said of a link with a module that costs nothing.
fn free_text(alloc: Global, network: &[u8], name: &[u8]) -> Result<Bytes, NoMemory>
    ensures { IfOk result (λ text. text ≡ free_link_message network.now name.now) }
{
    let mut text = List::new(alloc);
    text.append(network)?;
    text.append(b": a module of link ")?;
    text.append(name)?;
    text.append(
        b" costs nothing\n  a plan is shown to be cheap only where each module costs something; give it a cost, as 0.001\n",
    )?;
    text.append(b"refused network free-module at 0\n")?;
    Ok(text)
}

/// The answer to a network in which a module of this link costs nothing.
pub(crate) fn free_answer(
    alloc: Global,
    network: &[u8],
    name: &[u8],
) -> Result<PlanAnswer, NoMemory>
    ensures { IfOk result (λ a. (a.status ≡ Status.BadNetwork) × (a.text ≡ []) × (a.message ≡ free_link_message network.now name.now)) }
{
    let message = free_text(alloc, network, name)?;
    Ok(PlanAnswer {
        status: Status::BadNetwork,
        text: List::new(alloc),
        message,
    })
}

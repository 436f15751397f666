ghost use Rattle.std.specs.Prelude.{◌≡◌, ◌++◌, ◌∷◌, [], IfOk, OnOk, decimal, length};
ghost use Rattle.plan_terms.specs.Terms.{AreDemands, IsFirstSeparation};
ghost use Rattle.failure_texts.specs.Fates.{with_states};
ghost use Rattle.input_files.specs.Shelves.{KeepsShelf};
ghost use Rattle.people_files.specs.Endings.{FailsReading, Halts, HasCauseForPeople};
ghost use Rattle.people_commands.{specs.Endings.{EndsFailures, ListsFailures, SaysApart, apart_words}, specs.inner.Causes.apart_line};

use failure_texts::{FailureAnswer, failure_list};
use net_core::{Bytes, Demands, List, Network, NoMemory};
use outside_io::{Shelf, Status};
use people_files::{Halt, load_network, told};
use plan_report::demand_name;
use std::alloc::Global;
use text_kit::write::put_decimal;

/// Appends a name between other words.
fn put_between(text: &mut Bytes, front: &[u8], name: &[u8], end: &[u8]) -> Result<(), NoMemory>
    ensures { OnOk result (text.new ≡ text.old ++ (front.now ++ name.now ++ end.now)) }
{
    text.append(front)?;
    text.append(name)?;
    text.append(end)
}

/// Appends a line: a number and a name, each after other words.
fn put_numbered(
    text: &mut Bytes,
    front: &[u8],
    number: u128,
    middle: &[u8],
    more: &[u8],
    name: &[u8],
) -> Result<(), NoMemory>
    ensures { OnOk result (text.new ≡ text.old ++ (front.now ++ decimal number ++ middle.now ++ more.now ++ name.now ++ 10 ∷ [])) }
{
    text.append(front)?;
    put_decimal(text, number)?;
    text.append(middle)?;
    text.append(more)?;
    text.append(name)?;
    text.append(b"\n")
}

/// Appends what is said of a demand that is separated where nothing fails.
fn put_apart_words(text: &mut Bytes, demand: &[u8]) -> Result<(), NoMemory>
    ensures { OnOk result (text.new ≡ text.old ++ apart_words demand.now) }
{
    put_between(
        text,
        b"no path joins the ends of demand ",
        demand,
        b", even where nothing fails\n",
    )
}

/// Appends the planner's own line of a demand that is separated where nothing fails.
fn put_apart_line(text: &mut Bytes, demand: &[u8]) -> Result<(), NoMemory>
    ensures { OnOk result (text.new ≡ text.old ++ apart_line demand.now) }
{
    put_numbered(
        text,
        b"not survivable: state ",
        0,
        b" none",
        b" demand ",
        demand,
    )
}

/// What is said of a demand that is separated where nothing fails, with the planner's own line at the end.
fn apart_text(alloc: Global, demand: &[u8]) -> Result<Bytes, NoMemory>
    ensures { IfOk result (λ text. text ≡ apart_words demand.now ++ apart_line demand.now) }
{
    let mut text = List::new(alloc);
    put_apart_words(&mut text, demand)?;
    put_apart_line(&mut text, demand)?;
    Ok(text)
}

/// The end of a run at a network in which this demand is separated where nothing fails.
fn apart(alloc: Global, net: &Network, demands: &Demands, k: u32) -> Halt
    requires { IsFirstSeparation (with_states net.now demands.now []) 0 k }
    ensures { Halts (SaysApart net.now demands.now) result }
{
    let _net = net;
    let name = demand_name(demands.items(), k);
    told(Status::NotSurvivable, apart_text(alloc, name))
}

/// The failure list of a network.
fn failures_of(alloc: Global, net: &Network, demands: &Demands) -> Result<Bytes, Halt>
    requires { AreDemands (length net.now.nodes) demands.now }
    ensures { HasCauseForPeople (ListsFailures net.now demands.now) result }
{
    match failure_list(alloc, net, demands) {
        Ok(FailureAnswer::Printed(text)) => Ok(text),
        Ok(FailureAnswer::Apart(k)) => Err(apart(alloc, net, demands, k)),
        Err(NoMemory) => Err(Halt::NoMemory),
    }
}

/// The failure list of a network's file.
pub(crate) fn failures_file<S: Shelf>(
    alloc: Global,
    name: &str,
    shelf: &mut S,
) -> Result<Bytes, Halt>
    ensures ends { HasCauseForPeople (EndsFailures (S.files shelf.old) name.now) result }
    ensures shelf { KeepsShelf S.files S.faults (FailsReading result) shelf.old shelf.new }
{
    let (net, demands) = load_network(alloc, name, shelf)?;
    failures_of(alloc, &net, &demands)
}

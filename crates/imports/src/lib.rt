// A fresh roster on the machine that a box's list of frequencies gives. The definitions are in specs/.
#![tactic(auto)]

ghost use Rattle.std.specs.Prelude.{◌≡◌};
ghost use Rattle.imports.specs.Imports.{imported, import_reply, found_in};

use clocks::{Clock, ListError, read_clock};
use gmf::Machine;
use planner::{Reply, Roster};
use ranges::{one_to, speeds_fit};
use refusals::Refusal;

// The machine with so many processors and the speeds of a list, for whoever needs no roster with it.
pub fn find_machine(processors: u64, list: &[u8]) -> Result<Machine, Refusal>
    ensures { result ≡ found_in (imported processors list.now) }
{
    if !one_to(32, processors) {
        return Err(Refusal::Processors);
    }
    // a `match` and no `From`: neither error is this crate's
    let Clock {
        levels,
        lowest,
        step,
    } = match read_clock(list) {
        Ok(clock) => clock,
        Err(ListError::NoList) => return Err(Refusal::FrequencyList),
        Err(ListError::Uneven) => return Err(Refusal::UnevenGaps),
    };
    if !speeds_fit(levels as u64, u64::from(lowest), u64::from(step)) {
        return Err(Refusal::Speeds);
    }
    Ok(Machine {
        processors: processors as u8,
        levels: levels as u8,
        lowest: lowest as u16,
        step: step as u8,
    })
}

// Opens that machine on the empty roster; a refused import gives the empty roster.
pub fn import_machine(processors: u64, list: &[u8]) -> Reply
    ensures { result ≡ import_reply processors list.now }
{
    let roster = Roster::empty();
    match find_machine(processors, list) {
        Ok(machine) => roster.open_machine(
            machine.processors as u64,
            machine.levels as u64,
            machine.lowest as u64,
            machine.step as u64,
        ),
        Err(refusal) => Reply {
            answer: Err(refusal),
            roster,
        },
    }
}

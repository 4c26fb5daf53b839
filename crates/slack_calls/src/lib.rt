// The slack calls: frame 83 of a roster's plan on a page, and the slack with a job that is not held yet, as numbers. The definitions are in
// specs/.
#![tactic(auto)]

ghost use Rattle.std.specs.Prelude.{◌≡◌, ◌<◌, length};
ghost use Rattle.std.proofs.Math.IntN.{sub_ℕ};
ghost use Rattle.slack.specs.Slack.{slack_of};
ghost use Rattle.filing.specs.Plans.{filed_by};
ghost use Rattle.slack_calls.specs.Slacks.{slack_under, slack_reply, slack_to, ticks_in, remainders_in};

use accessors::{speed_of, top_speed, work_of};
use growing::{grow, steps_of};
use line_writer::NoRoom;
use planner::Roster;
use refusals::Refusal;
use selection::{next_job, none_taken};
use slack::{Slack, slack_of};
use slack_writer::write_slack;
use workload::Share;

// The slack of tests 1 to m, with zeros after it. Two lists, as the reply of the call has them.
#[derive(Clone, Copy, Debug, PartialEq, Eq)]
pub struct Slacks {
    pub ticks: [i64; 32],
    pub remainders: [u8; 32],
}

// The slack of a test that has `supply` and asks for `need`.
fn slack_between(supply: u64, need: u64, top: u32) -> Slack
    requires { (supply < 9223372036854775808) × (need < 9223372036854775808) }
    ensures { result ≡ slack_of (sub_ℕ supply need) top }
{
    slack_of(supply as i64 - need as i64, top)
}

// The slack of every test of a share under a level for each processor, test by test: one processor more joins, and the next largest work is
// found on the jobs themselves. From the test `steps` on all works are weighed.
fn slack_under(share: Share<'_>, levels: &[u8]) -> Slacks
    requires { length levels.now ≡ share.machine.processors }
    ensures { result ≡ slack_under share.entry.machine share.entry.jobs.now levels.now }
{
    let machine = share.machine;
    let jobs = share.jobs;
    let hyperperiod = share.totals.hyperperiod;
    let top = top_speed(machine);
    let steps = steps_of(machine.processors, jobs.len());
    let mut ticks = [0i64; 32];
    let mut remainders = [0u8; 32];
    let mut supply: u64 = 0;
    let mut taken: u64 = 0;
    let mut job = none_taken();
    // By index: of what is written through `iter_mut().zip(..)` a proof knows the length alone.
    for (i, level) in levels.iter().enumerate() {
        supply += hyperperiod as u64 * speed_of(machine, *level) as u64;
        let mut demand = share.totals.work;
        if i + 1 < steps {
            job = next_job(jobs, job);
            taken += work_of(job, hyperperiod);
            demand = taken;
        }
        let slack = slack_between(supply, top as u64 * demand, top);
        ticks[i] = slack.ticks;
        remainders[i] = slack.remainder as u8;
    }
    Slacks { ticks, remainders }
}

// Writes the slack of every test under the plan of a roster on a page from a place on, a frame of one byte and nine for each test; how many
// bytes of the page that takes. A refusal writes nothing, and the roster stays.
pub fn file_slack(roster: &Roster, page: &mut [u8], place: usize) -> Result<usize, Refusal>
    ensures { filed_by result page.new ≡ slack_reply roster.now page.old place }
{
    let share = roster.share()?;
    let m = share.machine.processors as usize;
    // some plan passes for a roster that keeps its rules
    let plan = grow(share).unwrap();
    let slacks = slack_under(share, &plan.levels[..m]);
    match write_slack(slacks.ticks, slacks.remainders, m, page, place) {
        Ok(()) => Ok(2 * (1 + 9 * m) + 1),
        Err(NoRoom) => Err(Refusal::NoRoom),
    }
}

// The slack with a job added and every core at top speed: what could still be carried, or how much is too much. The roster stays.
pub fn slack_with(
    roster: &Roster,
    id: u64,
    cost: u64,
    period: u64,
    deadline: u64,
) -> Result<Slacks, Refusal>
    ensures { result ≡ slack_to roster.now id cost period deadline }
{
    let offer = roster.offer(id, cost, period, deadline)?;
    let machine = roster.machine;
    let share = Share {
        machine,
        jobs: &offer.jobs[..roster.held as usize + 1],
        totals: offer.totals,
    };
    let highest = [machine.levels - 1; 32];
    Ok(slack_under(share, &highest[..machine.processors as usize]))
}

// The slacks that such an answer gives, for whoever wants numbers in any case: a refusal gives zeros.
pub fn slacks_in(answer: Result<Slacks, Refusal>) -> Slacks
    ensures ticks { result.ticks ≡ ticks_in answer }
    ensures remainders { result.remainders ≡ remainders_in answer }
{
    match answer {
        Ok(slacks) => slacks,
        Err(_) => Slacks {
            ticks: [0; 32],
            remainders: [0; 32],
        },
    }
}

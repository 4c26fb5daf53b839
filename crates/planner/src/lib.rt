// The roster of jobs, and the calls that change it. A roster goes into each call and the next roster comes back. The definitions are in
// specs/.
#![tactic(auto)]

ghost use Rattle.std.specs.Prelude.{◌≡◌, true, MatchResult};
ghost use Rattle.places.specs.Places.{listed};
ghost use Rattle.planner.specs.Model.{OpenMachine, ReplaceTable, Admit, Retire};
ghost use Rattle.planner.specs.Roster.{empty_roster, inspected, totals_found, IsShareOf, found, reply_to};
ghost use Rattle.planner.specs.Offers.{job_in, offering_to, IsOfferOn};

use gmf::{Job, Machine};
use house_table::default_table;
use place_moves::{put_in, take_out};
use power_tables::{accepts, entries_of};
use ranges::{job_fits, one_to, speeds_fit};
use refusals::Refusal;
use roster_shape::{in_shape, is_zero};
use workload::{Share, Totals, judge, load_of};

// The places of a roster.
const PLACES: usize = 64;

// A machine, or none, its power table, and the jobs held, by rising id. What is not used is 0. A studio keeps it in memory of its own, and sets its
// fields by hand: so there are arrays of fixed size, and no invariant.
#[derive(Clone, Copy, Debug, PartialEq, Eq)]
pub struct Roster {
    pub machine: Machine,
    pub table: [u32; 32],
    pub held: u8,
    pub jobs: [Job; 64],
}

// What a roster is found to be: one that breaks a rule, one with no machine, or one with a machine and the totals of its jobs. These are three
// states, and a call to open a machine wants the second, so that neither an Option nor a Result is plainer.
#[derive(Clone, Copy)]
pub enum Condition {
    Damaged,
    Closed,
    Open(Totals),
}

// The answer to a call, and the roster that comes back: the next one, or as it came where the call is refused.
#[derive(Clone, Copy)]
pub struct Reply {
    pub answer: Result<(), Refusal>,
    pub roster: Roster,
}

// What is found of a job that is offered: the places with it, and the totals with it.
#[derive(Clone, Copy)]
pub struct Offer {
    pub jobs: [Job; 64],
    pub totals: Totals,
}

// Where the job with an id stands among jobs by rising id, or else where it would.
fn find(jobs: &[Job], id: u16) -> Result<usize, usize>
    requires { listed jobs.now ≡ true }
    ensures { result ≡ found id jobs.now }
{
    jobs.binary_search_by_key(&id, |job| job.id)
}

// The job of some numbers, or refusal 4.
fn job_of(id: u64, cost: u64, period: u64, deadline: u64) -> Result<Job, Refusal>
    ensures { result ≡ job_in id cost period deadline }
{
    if !job_fits(id, cost, period, deadline) {
        return Err(Refusal::JobNumbers);
    }
    Ok(Job {
        id: id as u16,
        cost: cost as u16,
        period: period as u16,
        deadline: deadline as u16,
    })
}

impl Roster {
    // The roster of all zeros.
    pub fn empty() -> Roster
        ensures { result ≡ empty_roster }
    {
        Roster {
            machine: Machine::default(),
            table: [0; 32],
            held: 0,
            jobs: [Job::default(); 64],
        }
    }

    // Looks at every rule. One pass over the places and one over the jobs for their load.
    pub fn inspect(&self) -> Condition
        ensures { result ≡ inspected self.now }
    {
        if is_zero(self.machine, &self.table, self.held, &self.jobs) {
            return Condition::Closed;
        }
        if !in_shape(self.machine, &self.table, self.held, &self.jobs) {
            return Condition::Damaged;
        }
        let Some(totals) = load_of(&self.jobs[..self.held as usize]) else {
            return Condition::Damaged;
        };
        if judge(Some(totals), self.machine.processors).is_err() {
            return Condition::Damaged;
        }
        Condition::Open(totals)
    }

    // What a call asks for that needs a machine: the machine, its jobs and their totals, or refusal 7 or 11.
    pub fn share(&self) -> Result<Share<'_>, Refusal>
        ensures { MatchResult result (IsShareOf self.now) (λ refusal. Err refusal ≡ totals_found (inspected self.now)) }
    {
        match self.inspect() {
            Condition::Damaged => Err(Refusal::Damaged),
            Condition::Closed => Err(Refusal::NoMachine),
            Condition::Open(totals) => Ok(Share {
                machine: self.machine,
                jobs: &self.jobs[..self.held as usize],
                totals,
            }),
        }
    }

    // Opens a machine, with the default table. The numbers of this call and of the others come as a host sends them, 64 bits wide: no struct of a
    // machine or of a job can hold them before their ranges are looked at.
    pub fn open_machine(mut self, processors: u64, levels: u64, lowest: u64, step: u64) -> Reply
        ensures { result ≡ reply_to self (OpenMachine processors levels lowest step) }
    {
        Reply {
            answer: self.open(processors, levels, lowest, step),
            roster: self,
        }
    }

    fn open(&mut self, processors: u64, levels: u64, lowest: u64, step: u64) -> Result<(), Refusal>
        ensures { record { answer = result; roster = self.new } ≡ reply_to self.old (OpenMachine processors levels lowest step) }
    {
        match self.inspect() {
            Condition::Damaged => return Err(Refusal::Damaged),
            Condition::Open(_) => return Err(Refusal::MachineOpen),
            Condition::Closed => {}
        }
        if !one_to(32, processors) {
            return Err(Refusal::Processors);
        }
        if !speeds_fit(levels, lowest, step) {
            return Err(Refusal::Speeds);
        }
        let machine = Machine {
            processors: processors as u8,
            levels: levels as u8,
            lowest: lowest as u16,
            step: step as u8,
        };
        let table = default_table(machine);
        self.machine = machine;
        self.table = table;
        Ok(())
    }

    // Puts another power table in force.
    pub fn replace_table(mut self, values: &[u32]) -> Reply
        ensures { result ≡ reply_to self (ReplaceTable values.now) }
    {
        Reply {
            answer: self.replace(values),
            roster: self,
        }
    }

    fn replace(&mut self, values: &[u32]) -> Result<(), Refusal>
        ensures { record { answer = result; roster = self.new } ≡ reply_to self.old (ReplaceTable values.now) }
    {
        self.share()?;
        if !accepts(self.machine, values) {
            return Err(Refusal::PowerTable);
        }
        let table = entries_of(values);
        self.table = table;
        Ok(())
    }

    // Admits a job.
    pub fn admit(mut self, id: u64, cost: u64, period: u64, deadline: u64) -> Reply
        ensures { result ≡ reply_to self (Admit id cost period deadline) }
    {
        Reply {
            answer: self.enter(id, cost, period, deadline),
            roster: self,
        }
    }

    // A job is offered, and goes in where some plan passes with it.
    fn enter(&mut self, id: u64, cost: u64, period: u64, deadline: u64) -> Result<(), Refusal>
        ensures { record { answer = result; roster = self.new } ≡ reply_to self.old (Admit id cost period deadline) }
    {
        let offer = self.offer(id, cost, period, deadline)?;
        if judge(Some(offer.totals), self.machine.processors).is_err() {
            return Err(Refusal::NoPlan);
        }
        // in two steps: an array is not stored from field to field
        let jobs = offer.jobs;
        self.held += 1;
        self.jobs = jobs;
        Ok(())
    }

    // Offers a job without admitting it: refused as an admission is, but not for want of a plan.
    pub fn offer(&self, id: u64, cost: u64, period: u64, deadline: u64) -> Result<Offer, Refusal>
        ensures { MatchResult result (IsOfferOn self.now id cost period deadline) (λ refusal. Err refusal ≡ offering_to self.now id cost period deadline) }
    {
        let share = self.share()?;
        let job = job_of(id, cost, period, deadline)?;
        let Err(at) = find(share.jobs, job.id) else {
            return Err(Refusal::IdHeld);
        };
        let held = share.jobs.len();
        if PLACES <= held {
            return Err(Refusal::PlacesFull);
        }
        // the load with it comes from the totals, so that the jobs are not passed again
        let Some(totals) = share.totals.with(job) else {
            return Err(Refusal::HyperperiodTooLong);
        };
        let mut jobs = self.jobs;
        put_in(&mut jobs[..held + 1], at, job);
        Ok(Offer { jobs, totals })
    }

    // Retires a job.
    pub fn retire(mut self, id: u64) -> Reply
        ensures { result ≡ reply_to self (Retire id) }
    {
        Reply {
            answer: self.leave(id),
            roster: self,
        }
    }

    // The job with an id goes out. The rest has no more work in its own hyperperiod, so that some plan still passes.
    fn leave(&mut self, id: u64) -> Result<(), Refusal>
        ensures { record { answer = result; roster = self.new } ≡ reply_to self.old (Retire id) }
    {
        let share = self.share()?;
        if !one_to(65535, id) {
            return Err(Refusal::JobNumbers);
        }
        let Ok(at) = find(share.jobs, id as u16) else {
            return Err(Refusal::IdNotHeld);
        };
        let held = self.held as usize;
        take_out(&mut self.jobs[..held], at);
        self.held -= 1;
        Ok(())
    }
}

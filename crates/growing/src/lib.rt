// The plan of a machine for its jobs, grown (paper 004, section III).
#![tactic(auto)]

ghost use Rattle.std.specs.Prelude.{◌≡◌, min};
ghost use Rattle.growing.specs.Plan.{planned};

use accessors::{top_speed, work_of};
use selection::{next_job, none_taken};
use workload::Share;

// A level for each processor, and zeros after the last; the count of raises; the hyperperiod.
#[derive(Clone, Copy, Debug, PartialEq, Eq)]
pub struct Plan {
    pub hyperperiod: u32,
    pub raises: u16,
    pub levels: [u8; 32],
}

// How many steps may raise: with fewer jobs than processors, those after the last job raise nothing. From the last of them on a test weighs all
// works.
pub fn steps_of(processors: u8, held: usize) -> usize
    ensures { result ≡ min processors held }
{
    (processors as usize).min(held)
}

// Grows the plan: step by step one processor more joins, and the slowest of those that have joined is raised while the test fails. There is none
// where a test fails with all of these at the top. Both sides of a test stand multiplied by H × Q, as in the definition. The form is 01's: nested
// loops, left by label.
pub fn grow(share: Share<'_>) -> Option<Plan>
    ensures { result ≡ planned share.entry.machine share.entry.jobs.now }
{
    let machine = share.machine;
    let jobs = share.jobs;
    let totals = share.totals;
    let hyperperiod = totals.hyperperiod;
    let top_level = machine.levels - 1;
    let top_speed = top_speed(machine) as u64;
    // what one level more gets done in the hyperperiod
    let gain = hyperperiod as u64 * machine.step as u64;
    let steps = steps_of(machine.processors, jobs.len());
    let mut levels = [0u8; 32];
    // how many processors are above each level: levels never rise, so above[v] is the place of the first processor at level v
    let mut above = [0usize; 32];
    let mut raises: u16 = 0;
    let mut supply: u64 = 0;
    let mut taken: u64 = 0;
    let mut job = none_taken();
    // whether the works that are left are small: a processor at level 0 gets each done, so that no test before the last fails for them
    let mut small = false;
    'growing: {
        'joining: for i in 0..steps {
            let joined = i + 1;
            // what the processor that joins gets done at level 0
            let base = hyperperiod as u64 * machine.lowest as u64;
            supply += base;
            let mut demand = totals.work;
            if joined < steps {
                if !small {
                    job = next_job(jobs, job);
                    let work = work_of(job, hyperperiod);
                    taken += work;
                    small = top_speed * work <= base;
                }
                demand = taken;
            }
            let need = top_speed * demand;
            // the slowest level of the processors that have joined, and the lowest-numbered of those at it
            let mut v: u8 = 0;
            let mut p = above[0];
            'raising: while supply < need {
                if v == top_level {
                    break 'growing None;
                }
                levels[p] = v + 1;
                raises += 1;
                supply += gain;
                p += 1;
                above[v as usize] = p;
                if p == joined {
                    v += 1;
                    p = above[v as usize];
                }
            }
        }
        Some(Plan {
            hyperperiod,
            raises,
            levels,
        })
    }
}

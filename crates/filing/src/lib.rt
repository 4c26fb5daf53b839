// The plan call: the plan of a roster, filed as a frame on a page. The definitions are in specs/.
#![tactic(auto)]

ghost use Rattle.std.specs.Prelude.{◌≡◌};
ghost use Rattle.filing.specs.Plans.{filed_by, plan_reply};

use frame_writer::write_plan;
use growing::grow;
use line_writer::NoRoom;
use planner::Roster;
use power_tables::total_power;
use refusals::Refusal;

// Writes the plan of a roster on a page from a place on, a frame of 12 bytes and one for each level; how many bytes of the page that takes. A
// refusal writes nothing, and the roster stays.
pub fn file_plan(roster: &Roster, page: &mut [u8], place: usize) -> Result<usize, Refusal>
    ensures { filed_by result page.new ≡ plan_reply roster.now page.old place }
{
    let share = roster.share()?;
    let m = share.machine.processors as usize;
    // some plan passes for a roster that keeps its rules
    let plan = grow(share).unwrap();
    let levels = &plan.levels[..m];
    let power = total_power(&roster.table, levels);
    let written = write_plan(
        roster.held,
        plan.hyperperiod,
        power,
        plan.raises,
        levels,
        page,
        place,
    );
    match written {
        Ok(()) => Ok(2 * (12 + m) + 1),
        Err(NoRoom) => Err(Refusal::NoRoom),
    }
}

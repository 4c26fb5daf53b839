// The table that a new machine uses (01, "Power"): the house table, read at its speeds. The definitions are gmf's, and the 32 entries those of
// power_tables.
#![tactic(auto)]

ghost use Rattle.std.specs.Prelude.{◌≡◌};
ghost use Rattle.gmf.specs.Machine.{InRange};
ghost use Rattle.gmf.specs.Power.{default_table};
ghost use Rattle.power_tables.specs.Entries.{entries_of};

use gmf::Machine;

mod cubes;

use cubes::cube_table;

// The cube of each level's speed, and zeros from `levels` on.
pub fn default_table(machine: Machine) -> [u32; 32]
    requires { InRange machine }
    ensures { result ≡ entries_of (default_table machine) }
{
    let cubes = cube_table();
    let mut table = [0u32; 32];
    let mut speed = machine.lowest as usize;
    for entry in &mut table[..machine.levels as usize] {
        *entry = cubes[speed];
        speed += machine.step as usize;
    }
    table
}

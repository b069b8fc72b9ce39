// The possible states at each point of a run.
ghost use Rattle.points.specs.Believed.{BeliefsAs};

use states::{Outcomes, StateSet};

// One forward and one backward pass over the run: the possible states at the points 0 to i. Nothing is written for a run with over 32 commands, or
// where fewer than 33 masks are lent.
#[inline(never)]
pub fn beliefs<D: Outcomes>(run: &[u8], device: &D, sets: &mut [u64])
    ensures { BeliefsAs (D.device device.now) run.now sets.old sets.new }
{
    let i = runs::last_point(run);
    if sets.len() < 33 || 32 < i {
        return;
    }
    sets[0] = runs::percept_at(run, 0);
    for j in 0..i {
        let set = StateSet::of(sets[j as usize])
            .after(device, runs::command_at(run, j))
            .within(runs::percept_at(run, j + 1));
        sets[j as usize + 1] = set.mask;
    }
    for j in (0..i).rev() {
        let set = StateSet::of(sets[j as usize]).before(
            device,
            runs::command_at(run, j),
            sets[j as usize + 1],
        );
        sets[j as usize] = set.mask;
    }
}

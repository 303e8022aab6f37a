ghost use Rattle.std.specs.Prelude.{◌≡◌, ◌<◌, ℕ, List, IsTrue};
ghost use Rattle.plain_lister.specs.Order.{IsChoice, IsLast, IsNext, left_after};
ghost use Rattle.plain_lister.specs.Wheels.{Show};

use crate::wheels::Wheel;

// Puts the next choice, in cell order, in the place of this one, and tells whether there is one.
pub(crate) fn advance(wheels: &mut [Wheel], pairs: &mut [(u32, u32)]) -> bool
    ghost counts: { List ℕ }
    requires choice { IsChoice counts pairs.old }
    requires shown { Show counts wheels.old pairs.old }
    ensures shown { IsTrue result → Show counts wheels.new pairs.new }
    ensures next { IsTrue result → IsNext counts pairs.old pairs.new × IsChoice counts pairs.new
        × left_after counts pairs.new < left_after counts pairs.old }
    ensures last { ¬ (IsTrue result) → IsLast counts pairs.old }
{
    let mut place = wheels.len();
    while place > 0 {
        place -= 1;
        match wheels[place].turn() {
            Some(pair) => {
                pairs[place] = pair;
                return true;
            }
            None => pairs[place] = (1, 2),
        }
    }
    false
}

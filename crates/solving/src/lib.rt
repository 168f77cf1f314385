// Solving: follows a recipe over registers of any size. The registers stand one after another.
// Its function serves the crates above, which show what it requires; no user calls it.
#![tactic(auto)]

ghost use Rattle.std.specs.Prelude.{◌≡◌, ℕ, ◌+◌, ◌*◌, ◌%◌, ◌^◌, ◌≤◌, ◌<◌, length, get_or};
ghost use Rattle.rules.specs.Bits.{bit, placed, Adds};
ghost use Rattle.recipes.specs.Steps as steps;
ghost use Rattle.recipes.specs.Steps.{StepFits, Followed};
ghost use Rattle.turning.specs.Turning.{held_bits};

// A step of a recipe: the source register, turned, is added to the target.
#[derive(Clone, Copy)]
struct Step {
    target: usize,
    source: usize,
    turn: usize,
}

// A step is written as one number, in base 256: the rest of a turn above 255, the target, the source, and the turn.
impl From<u32> for Step {
    ghost from_gives = { λ number step. (step.target ≡ steps.target number) × (step.source ≡ steps.source number)
        × (step.turn ≡ steps.turn number) };

    fn from(number: u32) -> Step {
        let [turn, source, target, rest] = number.to_le_bytes();
        Step {
            target: usize::from(target),
            source: usize::from(source),
            turn: usize::from(u16::from_le_bytes([turn, rest])),
        }
    }
}

impl Step {
    // Does the step. A register that is a part of bytes is added faster.
    fn follow(self, registers: &mut [u8], size: usize)
        requires { (size ≤ held_bits) × (8 * length registers.old < 2 ^ 64)
            × (size * self.target + size ≤ 8 * length registers.old)
            × (size * self.source + size ≤ 8 * length registers.old) × (self.turn < size) }
        ensures { Adds registers.old registers.new
            (placed (size * self.target) size
            (λ t. bit registers.old (size * self.source + (t + self.turn) % size))) }
    {
        let Step {
            target,
            source,
            turn,
        } = self;
        if size == turning::PART_BITS {
            turning::add_within(
                registers,
                turning::PART_BYTES * target,
                turning::PART_BYTES * source,
                turn,
            );
        } else {
            turning::add_block_within(registers, size * target, size * source, size, turn);
        }
    }
}

// Does the steps of a recipe, one after another.
pub fn follow(registers: &mut [u8], size: usize, recipe: &[u32])
    requires { (0 < size) × (size ≤ held_bits) × (8 * length registers.old < 2 ^ 64)
        × ((k : ℕ) → k < length recipe.now → StepFits size (8 * length registers.old) (get_or recipe.now k 0)) }
    ensures { Followed size recipe.now registers.old registers.new }
{
    for number in recipe {
        Step::from(*number).follow(registers, size);
    }
}

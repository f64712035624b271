//! Where a console stands.

ghost use Rattle.b67_console.specs.Moments.{CommandIsTold, MayBeMade, StandsAt};

use crate::moving::go_world;
use crate::telling::push_answer;
use algol_world::World;
use b67_commands::Command;
use b67_limits::MOST_BUDGET;
use b67_list::Line;
use b67_machine::Machine;
use b67_midway::go_through;
use b67_schedule::Schedule;
use b67_stops::Walker;
use b67_store::Core;
use std::alloc::{AllocError, Global};

// One more than the operators of any run that the first replay goes through, so that none of them comes to it.
const MOST_OPERATORS: u32 = MOST_BUDGET as u32 + 1;

/// The world of the source and the machine, after the same entries of a schedule.
#[derive(Drop)]
pub struct Moment<'p, C: Core> {
    pub world: World<'p>,
    pub machine: Machine<C>,
    /// What was performed.
    pub done: Schedule,
    /// How many operators that had.
    pub spent: u32,
}

impl<'p, C: Core> Walker for Moment<'p, C> {
    ghost use Rattle.algol_cells.specs.SeenScope.{scoped};
    ghost use Rattle.algol_world.specs.SeenWorld.{world_of};
    ghost use Rattle.b67_schedule.specs.Schedules.{entries};

    ghost done = { λ m. entries m.done.runs };

    ghost stands = { λ m. StandsAt (scoped m.world.scopes) (world_of m.world) m.machine m.done m.spent };

    ghost goes = { λ m h. MayBeMade (scoped m.world.scopes) m.machine.code m.done.room h };

    ghost answers = { λ m h c t. CommandIsTold (scoped m.world.scopes) m.machine.code h c t };

    fn go(&mut self, alloc: Global, process: u32, times: u32) -> Result<(), AllocError> {
        go_world(&mut self.world, alloc, process, times)?;
        go_through(
            &mut self.machine,
            MOST_OPERATORS,
            &mut self.spent,
            &mut self.done,
            process,
            times,
        )?;
        Ok(())
    }

    fn tell(&self, alloc: Global, command: &Command) -> Result<Line, AllocError> {
        let mut text = Vec::new(alloc);
        push_answer(
            &mut text,
            alloc,
            &self.world,
            &self.machine,
            self.done.len(),
            command,
        )?;
        Ok(Line::of(text))
    }
}

// A machine that is begun again, and compared with another one.
ghost use Rattle.std.specs.Prelude.{◌≡◌, ℕ, true, length, IfOk};
ghost use Rattle.b67_machine.specs.Beginning.{IsFresh};
ghost use Rattle.b67_machine.specs.Kept.{operators_counted};

use crate::Machine;
use crate::same::{same_lines, same_numbers, same_registers, same_states};
use b67_again::{Again, mix};
use b67_load::load_again;
use b67_reach::{ProcessState, Registers};
use b67_word::Place;
use std::alloc::AllocError;

// No process has performed an operator.
fn clear_counts(counts: &mut Vec<u64>)
    ensures none { (p : ℕ) → operators_counted counts.new.items p ≡ 0 }
    ensures size { length counts.new.items ≡ length counts.old.items }
{
    counts.as_mut_slice().fill(0);
}

// A place as a number.
fn place_number(place: Place) -> u64 {
    (u64::from(place.stack) << 16) | u64::from(place.at)
}

// A state as a number.
fn state_number(state: ProcessState) -> u64 {
    match state {
        ProcessState::Able => 0,
        ProcessState::WaitsFor(place) => (1 << 32) | place_number(place),
        ProcessState::WaitsAny => 2 << 32,
        ProcessState::Procures(place) => (3 << 32) | place_number(place),
        ProcessState::Ended => 4 << 32,
    }
}

// A number made of another one and of registers. Those are left out that seldom differ where these do not.
fn mix_registers(hash: u64, regs: &Registers) -> u64 {
    let pointer = (u64::from(regs.segment) << 16) | u64::from(regs.place);
    let frame = (u64::from(regs.f) << 8) | u64::from(regs.ll);
    mix(mix(hash, (pointer << 32) | u64::from(regs.s)), frame)
}

impl<C: Again> Machine<C> {
    /// The machine of its code before its first operator, as [`Machine::load`] makes it on a store in which nothing was opened. It keeps its
    /// memory, its code and what it has made of its segments. Where there is no memory, it is a machine of that code still.
    pub fn restart(&mut self) -> Result<(), AllocError>
        ensures fresh { IfOk result (λ u. IsFresh self.new) }
        ensures code { self.new.code ≡ self.old.code }
    {
        clear_counts(&mut self.counts);
        self.failure = None;
        self.limit = None;
        self.lacked = false;
        self.letter = None;
        load_again(&mut self.core, &mut self.kernel, &mut self.parts)
    }

    /// Tests that the images of two machines are the same. `false` says nothing; it comes where a process is at fault.
    pub fn same(&self, other: &Machine<C>) -> bool
        ensures { result ≡ true → self.now.image ≡ other.now.image }
    {
        self.failure.is_none()
            && other.failure.is_none()
            && self.parts.started == other.parts.started
            && same_states(self.parts.states.as_slice(), other.parts.states.as_slice())
            && same_numbers(
                self.parts.numbers.as_slice(),
                other.parts.numbers.as_slice(),
            )
            && same_registers(self.parts.regs.as_slice(), other.parts.regs.as_slice())
            && same_lines(self.parts.output.as_slice(), other.parts.output.as_slice())
            && self.kernel.same(&other.kernel)
            && self.core.same(&other.core)
    }

    /// A number of its image: the same for the same image. Nothing more is said of it.
    pub fn hash(&self) -> u64 {
        let mut hash = mix(
            u64::from(self.parts.started),
            self.parts.output.len() as u64,
        );
        'states: for index in 0..self.parts.states.len() {
            hash = mix(hash, state_number(self.parts.states[index]));
        }
        'numbers: for index in 0..self.parts.numbers.len() {
            hash = mix(hash, u64::from(self.parts.numbers[index]));
        }
        'processes: for index in 0..self.parts.regs.len() {
            hash = mix_registers(hash, &self.parts.regs[index]);
        }
        self.core.mixed(hash)
    }
}

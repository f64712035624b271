//! The states of processes and their woken numbers, by the processes' numbers from 1.

ghost use Rattle.std.specs.Prelude.{◌≡◌, ◌≤◌, length};
ghost use Rattle.b67_list.specs.Numbered.{set_numbered};
ghost use Rattle.b67_table.specs.Image.{woken_number};
ghost use Rattle.b67_table.specs.Writes.{able_again};
ghost use Rattle.b67_reach.specs.Woken.{told_number, told_numbers};

use crate::ProcessState;
use b67_events::Woken;

/// A process is in a state; a number that no process has changes nothing.
pub fn set_state(states: &mut Vec<ProcessState>, process: u32, state: ProcessState)
    ensures { states.new.items ≡ set_numbered states.old.items process state }
{
    let index = process as usize;
    if 1 <= index && index <= states.len() {
        states[index - 1] = state;
    }
}

/// These processes are able.
pub fn wake(states: &mut Vec<ProcessState>, processes: &Vec<u32>)
    ensures { states.new.items ≡ able_again processes.now.items states.old.items }
{
    'waking: for process in processes {
        set_state(states, *process, ProcessState::Able);
    }
}

/// The woken number of a process, 0 where there is none.
pub fn woken_number(numbers: &Vec<u32>, process: u32) -> u32
    ensures { result ≡ woken_number numbers.now.items process }
{
    let index = process as usize;
    if 1 <= index && index <= numbers.len() {
        numbers[index - 1]
    } else {
        0
    }
}

/// A process has a woken number; a number that no process has changes nothing.
pub fn set_number(numbers: &mut Vec<u32>, process: u32, number: u32)
    ensures { numbers.new.items ≡ set_numbered numbers.old.items process number }
{
    let index = process as usize;
    if 1 <= index && index <= numbers.len() {
        numbers[index - 1] = number;
    }
}

// A process has a position for its woken number; a position of 0 is none, and leaves the number.
fn tell(numbers: &mut Vec<u32>, process: u32, position: u32)
    ensures { numbers.new.items ≡ told_number process position numbers.old.items }
{
    if position != 0 {
        set_number(numbers, process, position);
    }
}

// So have these processes these positions.
fn number_all(numbers: &mut Vec<u32>, processes: &Vec<u32>, positions: &Vec<u32>)
    requires { length processes.now.items ≤ length positions.now.items }
    ensures { numbers.new.items ≡ told_numbers processes.now.items positions.now.items numbers.old.items }
{
    'telling: for index in 0..processes.len() {
        tell(numbers, processes[index], positions[index]);
    }
}

/// The processes that an event released are able, each with its position for its woken number.
pub fn wake_all(states: &mut Vec<ProcessState>, numbers: &mut Vec<u32>, woken: &Woken)
    requires { length woken.now.processes.items ≤ length woken.now.positions.items }
    ensures states { states.new.items ≡ able_again woken.now.processes.items states.old.items }
    ensures numbers { numbers.new.items ≡ told_numbers woken.now.processes.items woken.now.positions.items numbers.old.items }
{
    wake(states, &woken.processes);
    number_all(numbers, &woken.processes, &woken.positions);
}

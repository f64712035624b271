// Entries of one process, one after another.
ghost use Rattle.std.specs.Prelude.{◌≡◌, ◌+◌, ◌<◌, ◌≤◌, ◌^◌, [], None, false, true, length};
ghost use Rattle.b67_list.specs.Numbered.{numbered};
ghost use Rattle.b67_table.specs.Image.{is_able};
ghost use Rattle.b67_table.specs.Valid.{IsValid};
ghost use Rattle.b67_action.specs.declared.done.Done.TheVariants.{Went};
ghost use Rattle.b67_machine.specs.Entries.{PerformsEntries};
ghost use Rattle.b67_machine.specs.Kept.{operators_counted};
ghost use Rattle.b67_machine.specs.Reads.{machine_end};

use crate::counting::write_letter;
use crate::{Machine, Performed};
use b67_action::{Done, Ran};
use b67_deeds::Letter;
use b67_store::Core;

/// What was performed of entries of one process.
#[derive(Clone, Copy)]
pub struct Entered {
    /// How many entries came before the last one.
    pub entries: u32,
    /// How many operators they had in all.
    pub operators: u32,
    /// What was performed of the last one.
    pub last: Performed,
}

// One entry, of which this was performed.
fn only(plain: u32, done: Option<Done>) -> Entered
    ensures { result ≡ record { entries = 0; operators = 0; last = record { plain = plain; done = done } } }
{
    Entered {
        entries: 0,
        operators: 0,
        last: Performed { plain, done },
    }
}

impl<C: Core> Machine<C> {
    // Tests that an entry whose operator came to this is passed over: it went on, no process was started above so many, and nobody was released.
    fn is_passed(&self, done: Done, before: u32) -> bool
        ensures { result ≡ true → (done ≡ Went) × (self.now.image.started ≡ before) × (self.now.released ≡ []) }
    {
        matches!(done, Done::Went) && self.started() == before && self.released().is_empty()
    }

    // Entries one after another on a machine that found memory, where an operator is allowed. The letter of each is noted.
    fn pass(&mut self, process: u32, letters: &mut [Letter], most: u32) -> Entered
        requires able { is_able (numbered self.old.image.states process) ≡ true }
        requires going { machine_end self.old ≡ None }
        requires count { operators_counted self.old.counts process + most < 2 ^ 64 }
        requires here { self.old.lacked ≡ false }
        requires some { 1 ≤ most }
        requires room { 1 ≤ length letters.old }
        ensures performs { PerformsEntries self.old process most result letters.new self.new }
        ensures size { length letters.new ≡ length letters.old }
        ensures valid { IsValid self.new.code self.new.image }
    {
        let before = self.started();
        let room = letters.len() - 1;
        let mut ran = self.run_process(process, &mut letters[..room], most - 1);
        'passing: while (ran.entries as usize) < room && ran.operators + ran.plain + 1 < most {
            let done = self.act(process);
            let at = ran.entries as usize;
            write_letter(&mut letters[at], self.letter());
            if !self.is_passed(done, before) {
                return Entered {
                    entries: ran.entries,
                    operators: ran.operators,
                    last: Performed {
                        plain: ran.plain,
                        done: Some(done),
                    },
                };
            }
            let operators = ran.operators + ran.plain + 1;
            let rest = &mut letters[at + 1..room];
            let more = self.run_process(process, rest, most - 1 - operators);
            ran = Ran {
                entries: ran.entries + 1 + more.entries,
                operators: operators + more.operators,
                plain: more.plain,
            };
        }
        let mut last = self.perform_entry(process, most - ran.operators - ran.plain);
        write_letter(&mut letters[ran.entries as usize], self.letter());
        last.plain += ran.plain;
        Entered {
            entries: ran.entries,
            operators: ran.operators,
            last,
        }
    }

    // The same with one entry. An action on the process's own stack is performed with its plain operators at once.
    fn pass_one(&mut self, process: u32, letters: &mut [Letter], most: u32) -> Entered
        requires able { is_able (numbered self.old.image.states process) ≡ true }
        requires going { machine_end self.old ≡ None }
        requires count { operators_counted self.old.counts process + most < 2 ^ 64 }
        requires here { self.old.lacked ≡ false }
        requires some { 1 ≤ most }
        requires room { length letters.old ≡ 1 }
        ensures performs { PerformsEntries self.old process most result letters.new self.new }
        ensures size { length letters.new ≡ length letters.old }
        ensures valid { IsValid self.new.code self.new.image }
    {
        let ran = self.run_process(process, letters, most);
        if ran.entries > 0 {
            return only(ran.operators - 1, Some(Done::Went));
        }
        if ran.plain == most {
            return only(most, None);
        }
        let done = self.act(process);
        write_letter(&mut letters[0], self.letter());
        only(ran.plain, Some(done))
    }

    /// Performs entries of a process one after another, as long as each goes on and neither releases nor starts anybody, and at most so many
    /// operators in all. The letter of each is noted, and there is room for that of the last one too, which need not go on.
    pub fn perform_entries(&mut self, process: u32, letters: &mut [Letter], most: u32) -> Entered
        requires able { is_able (numbered self.old.image.states process) ≡ true }
        requires going { machine_end self.old ≡ None }
        requires count { operators_counted self.old.counts process + most < 2 ^ 64 }
        requires room { 1 ≤ length letters.old }
        ensures performs { PerformsEntries self.old process most result letters.new self.new }
        ensures size { length letters.new ≡ length letters.old }
        ensures valid { IsValid self.new.code self.new.image }
    {
        if self.lacked || most == 0 {
            let last = self.perform_entry(process, most);
            return Entered {
                entries: 0,
                operators: 0,
                last,
            };
        }
        if letters.len() == 1 {
            return self.pass_one(process, letters, most);
        }
        self.pass(process, letters, most)
    }
}

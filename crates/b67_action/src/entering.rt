// ENTR: an intrinsic is called, or a procedure entered.
ghost use Rattle.std.specs.Prelude.{◌≡◌, ◌≤◌, ℕ, true, false, Some, Err, IfSome, OnOk, vec_capacity};
ghost use Rattle.b67_list.specs.Numbered.{numbered};
ghost use Rattle.b67_segment.specs.declared.code.Code.{Code};
ghost use Rattle.b67_table.specs.Intrinsics.{intrinsic_row, row_of_intrinsic};
ghost use Rattle.b67_table.specs.Names.{intrinsic_numbered};
ghost use Rattle.b67_table.specs.Rows.{enter};
ghost use Rattle.b67_table.specs.Starting.{start_process};
ghost use Rattle.b67_going.specs.Starts.{IsCalling, HasNext};
ghost use Rattle.b67_operators.specs.Leaves.{IsLinkedIn, program_in};
ghost use Rattle.b67_intrinsics.specs.declared.hindrance.Hindrance.TheVariants.{NoMemory};
ghost use Rattle.b67_intrinsics.specs.Called.{called_in, Tries};
ghost use Rattle.b67_intrinsics.specs.Names.{Releases};
ghost use Rattle.b67_reach.specs.Images.{image_of};
ghost use Rattle.b67_reach.specs.Woken.{KeepsPlaces};
ghost use Rattle.b67_reach.specs.Answers.{ProgramActs};
ghost use Rattle.b67_action.specs.Acting.{IsActing, IsEntering, selects, hindered, CallsMaker, CallReleases, EnterReleases};
ghost use Rattle.b67_action.specs.Among.{ActsIn};
ghost use Rattle.b67_action.specs.Done.{makes};
ghost use Rattle.b67_action.specs.Lettered.{enter_letter};

use crate::letters::called_letter;
use crate::words::enter_procedure;
use b67_control::Mscw;
use b67_deeds::Letter;
use b67_events::Kernel;
use b67_going::{Unstarted, go_to, start};
use b67_intrinsics::{
    Hindrance, arrays, available, cause, cause_and_reset, fix, happened, liberate, make_event,
    procure, registers, reset, select, wait, wait_any, write,
};
use b67_operators::find_called;
use b67_ops::{FIRST_INTRINSIC, INTRINSICS, Intrinsic};
use b67_reach::{Parts, Registers, Stop, invalid, woken_number};
use b67_store::Core;

// The intrinsics in the order of their numbers.
const IN_ORDER: [Intrinsic; INTRINSICS] = [
    Intrinsic::GoTo,
    Intrinsic::Select,
    Intrinsic::Arrays,
    Intrinsic::Event,
    Intrinsic::Start,
    Intrinsic::Write,
    Intrinsic::Wait,
    Intrinsic::Cause,
    Intrinsic::Reset,
    Intrinsic::Happened,
    Intrinsic::Procure,
    Intrinsic::Liberate,
    Intrinsic::WaitAny,
    Intrinsic::CauseAndReset,
    Intrinsic::Available,
    Intrinsic::Fix,
];

/// The intrinsic of a number, where there is one.
pub fn intrinsic_numbered(number: u16) -> Option<Intrinsic>
    ensures { result ≡ intrinsic_numbered number }
{
    if number < FIRST_INTRINSIC {
        return None;
    }
    let index = usize::from(number - FIRST_INTRINSIC);
    if index < IN_ORDER.len() {
        Some(IN_ORDER[index])
    } else {
        None
    }
}

// Tests that an intrinsic makes something, for which there may be no memory.
fn makes(name: Intrinsic) -> bool
    ensures { result ≡ makes (Some name) }
{
    match name {
        Intrinsic::Arrays | Intrinsic::Event | Intrinsic::Start | Intrinsic::Write => true,
        _ => false,
    }
}

// SELECT, in a process.
fn select_in<C: Core>(
    core: &mut C,
    all: &mut Vec<Registers>,
    process: u32,
    mark: &Mscw,
) -> Result<(), Stop>
    requires linked { IsLinkedIn (C.Core.stacks core.old) (C.Core.rows core.old) (numbered all.old.items process) }
    requires above { IsEntering (numbered all.old.items process) }
    ensures acts { (code : Code) (next : ℕ) → ActsIn (selects code mark.now) next (C.Core.stacks core.old) (C.Core.rows core.old) all.old.items process (C.Core.stacks core.new) (C.Core.rows core.new) all.new.items result }
    ensures room { vec_capacity all.old ≤ vec_capacity all.new }
{
    let regs = &mut all[process as usize - 1];
    select(core, regs, mark)
}

// An intrinsic that takes no memory.
fn call_plainly<C: Core>(
    core: &mut C,
    kernel: &mut Kernel,
    parts: &mut Parts,
    process: u32,
    name: Intrinsic,
    mark: &Mscw,
    next: u16,
) -> Result<(), Stop>
    requires acting { IsActing (C.Core.stacks core.old) (C.Core.rows core.old) kernel.old parts.old process }
    requires entering { IsEntering (numbered parts.old.regs.items process) }
    requires plain { makes (Some name) ≡ false }
    ensures acts { ProgramActs process (called_in (row_of_intrinsic name) parts.old.code (numbered parts.old.regs.items process) next mark.now) (image_of (C.Core.stacks core.old) (C.Core.rows core.old) kernel.old parts.old) (image_of (C.Core.stacks core.new) (C.Core.rows core.new) kernel.new parts.new) result }
    ensures woken { OnOk result (Releases name (image_of (C.Core.stacks core.old) (C.Core.rows core.old) kernel.old parts.old) (numbered parts.old.regs.items process) mark.now parts.old.woken.processes.items parts.new.woken.processes.items) }
    ensures capacity { KeepsPlaces parts.old.woken parts.new.woken }
    ensures processes { kernel.new.room ≡ kernel.old.room }
    ensures code { parts.new.code ≡ parts.old.code }
{
    match name {
        Intrinsic::GoTo => go_to(core, kernel, parts, process),
        Intrinsic::Select => select_in(core, &mut parts.regs, process, mark),
        Intrinsic::Wait => wait(core, kernel, parts, process, mark, next),
        Intrinsic::Cause => cause(core, kernel, parts, process, mark, next),
        Intrinsic::Reset => reset(core, kernel, parts, process, mark, next),
        Intrinsic::Happened => happened(core, kernel, parts, process, mark, next),
        Intrinsic::Procure => procure(core, kernel, parts, process, mark, next),
        Intrinsic::Liberate => liberate(core, kernel, parts, process, mark, next),
        Intrinsic::WaitAny => wait_any(core, kernel, parts, process, mark, next),
        Intrinsic::CauseAndReset => cause_and_reset(core, kernel, parts, process, mark, next),
        Intrinsic::Available => available(core, kernel, parts, process, mark, next),
        Intrinsic::Fix => fix(core, kernel, parts, process, mark, next),
        _ => Err(invalid()),
    }
}

// START, whose answer is not told.
fn start_in<C: Core>(
    core: &mut C,
    kernel: &Kernel,
    parts: &mut Parts,
    process: u32,
    mark: &Mscw,
    next: u16,
) -> Result<(), Hindrance>
    requires calling { IsCalling (C.Core.stacks core.old) (C.Core.rows core.old) (numbered parts.old.regs.items process) }
    requires next { HasNext (C.Core.stacks core.old) parts.old }
    ensures tries { Tries process (called_in start_process parts.old.code (numbered parts.old.regs.items process) next mark.now) (image_of (C.Core.stacks core.old) (C.Core.rows core.old) kernel.now parts.old) (image_of (C.Core.stacks core.new) (C.Core.rows core.new) kernel.now parts.new) result }
    ensures code { parts.new.code ≡ parts.old.code }
    ensures woken { parts.new.woken ≡ parts.old.woken }
{
    match start(core, kernel, parts, process, mark, next) {
        Ok(_) => Ok(()),
        Err(Unstarted::Stopped(stop)) => Err(Hindrance::Stopped(stop)),
        Err(Unstarted::NoMemory) => Err(Hindrance::NoMemory),
    }
}

// An intrinsic that makes something.
fn call_making<C: Core>(
    core: &mut C,
    kernel: &mut Kernel,
    parts: &mut Parts,
    process: u32,
    name: Intrinsic,
    mark: &Mscw,
    next: u16,
) -> Result<(), Hindrance>
    requires acting { IsActing (C.Core.stacks core.old) (C.Core.rows core.old) kernel.old parts.old process }
    requires entering { IsEntering (numbered parts.old.regs.items process) }
    requires makes { makes (Some name) ≡ true }
    ensures tries { Tries process (called_in (row_of_intrinsic name) parts.old.code (numbered parts.old.regs.items process) next mark.now) (image_of (C.Core.stacks core.old) (C.Core.rows core.old) kernel.old parts.old) (image_of (C.Core.stacks core.new) (C.Core.rows core.new) kernel.new parts.new) result }
    ensures woken { parts.new.woken ≡ parts.old.woken }
    ensures processes { kernel.new.room ≡ kernel.old.room }
    ensures code { parts.new.code ≡ parts.old.code }
{
    match name {
        Intrinsic::Arrays => arrays(core, parts, process, mark, next),
        Intrinsic::Event => make_event(core, kernel, parts, process, mark, next),
        Intrinsic::Start => start_in(core, kernel, parts, process, mark, next),
        Intrinsic::Write => write(core, parts, process, mark, next),
        _ => Err(Hindrance::Stopped(invalid())),
    }
}

/// An answer that no memory hinders.
pub fn hindered(answer: Result<(), Stop>) -> Result<(), Hindrance>
    ensures { result ≡ hindered answer }
{
    match answer {
        Ok(()) => Ok(()),
        Err(stop) => Err(Hindrance::Stopped(stop)),
    }
}

// The intrinsic of a number is called.
fn call<C: Core>(
    core: &mut C,
    kernel: &mut Kernel,
    parts: &mut Parts,
    process: u32,
    number: u16,
    mark: &Mscw,
    next: u16,
) -> Result<(), Hindrance>
    requires acting { IsActing (C.Core.stacks core.old) (C.Core.rows core.old) kernel.old parts.old process }
    requires entering { IsEntering (numbered parts.old.regs.items process) }
    ensures tries { Tries process (called_in (intrinsic_row (intrinsic_numbered number)) parts.old.code (numbered parts.old.regs.items process) next mark.now) (image_of (C.Core.stacks core.old) (C.Core.rows core.old) kernel.old parts.old) (image_of (C.Core.stacks core.new) (C.Core.rows core.new) kernel.new parts.new) result }
    ensures making { result ≡ Err NoMemory → makes (intrinsic_numbered number) ≡ true }
    ensures woken { OnOk result (CallReleases (intrinsic_numbered number) (image_of (C.Core.stacks core.old) (C.Core.rows core.old) kernel.old parts.old) (numbered parts.old.regs.items process) mark.now parts.old.woken.processes.items parts.new.woken.processes.items) }
    ensures capacity { KeepsPlaces parts.old.woken parts.new.woken }
    ensures processes { kernel.new.room ≡ kernel.old.room }
    ensures code { parts.new.code ≡ parts.old.code }
{
    let Some(name) = intrinsic_numbered(number) else {
        return Err(Hindrance::Stopped(invalid()));
    };
    if makes(name) {
        call_making(core, kernel, parts, process, name, mark, next)
    } else {
        hindered(call_plainly(core, kernel, parts, process, name, mark, next))
    }
}

/// ENTR, in a process: the intrinsic that the PCW names is called, or the procedure is entered. Which letter that has is noted where what is
/// called is found.
pub fn enter<C: Core>(
    core: &mut C,
    kernel: &mut Kernel,
    parts: &mut Parts,
    process: u32,
    next: u16,
    letter: &mut Option<Letter>,
) -> Result<(), Hindrance>
    requires { IsActing (C.Core.stacks core.old) (C.Core.rows core.old) kernel.old parts.old process }
    ensures tries { Tries process (program_in (enter parts.old.code) (numbered parts.old.regs.items process) next) (image_of (C.Core.stacks core.old) (C.Core.rows core.old) kernel.old parts.old) (image_of (C.Core.stacks core.new) (C.Core.rows core.new) kernel.new parts.new) result }
    ensures making { result ≡ Err NoMemory → CallsMaker (C.Core.stacks core.old) (numbered parts.old.regs.items process) }
    ensures letter { OnOk result (IfSome (numbered parts.old.regs.items process) (λ r. letter.new ≡ enter_letter (image_of (C.Core.stacks core.old) (C.Core.rows core.old) kernel.old parts.old) r)) }
    ensures woken { OnOk result (EnterReleases (image_of (C.Core.stacks core.old) (C.Core.rows core.old) kernel.old parts.old) (numbered parts.old.regs.items process) parts.old.woken.processes.items parts.new.woken.processes.items) }
    ensures capacity { KeepsPlaces parts.old.woken parts.new.woken }
    ensures processes { kernel.new.room ≡ kernel.old.room }
    ensures code { parts.new.code ≡ parts.old.code }
{
    let regs = registers(&parts.regs, process);
    let called = match find_called(core, regs) {
        Ok(called) => called,
        Err(stop) => return Err(Hindrance::Stopped(stop)),
    };
    // the number of a process is that of its stack
    let woken = woken_number(&parts.numbers, u32::from(regs.stack));
    *letter = called_letter(woken, &called.pcw);
    if called.pcw.intrinsic {
        call(
            core,
            kernel,
            parts,
            process,
            called.pcw.number,
            &called.mark,
            next,
        )
    } else {
        hindered(enter_procedure(core, &mut parts.regs, process, &called, next))
    }
}

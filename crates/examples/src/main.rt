//! Answers the examples and the cases of sheets by the top call, and compares each answer with what is expected.
//!
//! The folder that it runs in has them. The file `examples` has a line for each example: its name NAME, and its exit status where
//! that is not 0. Beside its source `NAME.alg` stands its report `NAME.report`, that of `run 1 100000`. The file `codes` has the same
//! for each text of code: beside `NAME.asm` stands in `NAME.report` what `exec 1000` prints of it. The file `sheets` has a line for
//! each sheet of cases that the top call answers, the file `parts` one for each that is answered as `parts` says; `case_sheet` tells the
//! form of a sheet. The setting of a case may say `read N fails` or `write N fails`, where the calls are counted from 0, `room N`, the
//! number of bytes for which the sink has room, or `cut N`, that of the bytes of the input that there are. Each source is read at most 7
//! bytes at a time. The cases of `shared.sheet`, where nothing fails, are answered by processors that share the work, each in a thread of
//! its own; by the setting `meet N` each is held at the gate until another stands there too, N times, once the first process has started
//! another. The schedule that is printed has to have the same listing, output and end when it is replayed. Of `landings.sheet` it is told in `landings`.
//!
//! These cases are the tests of `b67_desk` and, through it, of what it calls: the front end, the compiler, the listing, the
//! machine from its first image to its end, the schedules and the reports, and by texts of code the assembler, the operators, the
//! intrinsics, the linkage of frames, stores, events and descriptors. One sheet of `parts` has tables: what the top call answers where each
//! read or write in turn fails, for each room, and where the input is cut before each byte.
//!
//! The other sheets of `parts` are the tests of `assemble` (b67_asm), `read_text` (b67_asm_text) and `source` (b67_asm_writer), of
//! `read_listing` (b67_listing_reader), `listing` (b67_listing), `copy` (b67_segment), `read_report` and `text` (b67_report); of `lex`
//! (algol_lexer), `front` (algol_front), of what `Scopes` (algol_scope) answers, of `scopes_of` (algol_names), `start` (algol_perform),
//! `step`, `end_of` and `follow` (algol_run), and through them of the crates of the meaning; of `put` and `take` (b67_ready), and of `new`,
//! `take`, `land`, `act`, `machine` and `schedule` (b67_plant); those of landings are the tests of `work` and of `SharedPlant`'s calls there.
//!
//! Worked values that no text shows are those of whole numbers (b67_num), words (b67_word), control words and the display (b67_control),
//! of sources and sinks that fail in mid-stream (b67_io), and of processors that serve a shop (b67_processors).
#![tactic(auto)]

mod answer;
mod codes;
mod control_words;
mod landings;
mod numbers;
mod outside;
mod parts;
mod replays;
mod rules;
mod serving;
mod shared;
mod spans;
mod streams;
mod tables;
mod texts;
mod told;
mod words;

use crate::answer::{answered, call_told};
use crate::landings::push_landings;
use crate::outside::Outside;
use crate::parts::part_told;
use crate::shared::shared_text;
use crate::told::{push_case, push_told};
use case_sheet::{cases_of, say};
use std::alloc::{AllocError, Global};
use std::sync::Wait;
use std::thread::Threads;
use std::{fs, io};

/// The words under which the examples have their reports.
const EXAMPLE: &str = "==== example: run 1 100000\n---- 0\n";

/// The words under which the texts of code are run.
const CODE: &str = "==== code: exec 1000\n---- 0\n";

/// Prints a text.
fn tell(rt: &HostRuntime, text: &[u8]) -> io::Result<()> {
    let text = String::from_utf8_lossy(rt.alloc(), text)?;
    print!(rt; "{text}")
}

/// The bytes of a file.
fn bytes_of(rt: &HostRuntime, name: &str, ending: &str) -> io::Result<Vec<u8>> {
    fs::read(rt, format!(in rt.alloc(); "{name}.{ending}")?)
}

/// The name of an example and its exit status, which is 0 where none stands after the name.
fn headed(line: &str) -> (&str, Option<u8>) {
    match line.split_once(' ') {
        Some((name, status)) => (name, status.parse().ok()),
        None => (line, Some(0)),
    }
}

/// Answers an example, whose text stands in the file of this ending.
fn tell_example(rt: &HostRuntime, words: &[String], line: &str, ending: &str) -> io::Result<()> {
    let (name, status) = headed(line);
    let source = bytes_of(rt, name, ending)?;
    let report = bytes_of(rt, name, "report")?;
    let told = answered(rt.alloc(), words, source, Outside::whole(rt.alloc()))?;
    let is_met = told.bytes.as_slice() == report.as_slice() && status == Some(told.status);
    let mut text = Vec::new(rt.alloc());
    push_told(&mut text, name, is_met, &told);
    tell(rt, text.as_slice())
}

/// Answers the examples that this file names, under the words of a case without an input.
fn tell_examples(rt: &HostRuntime, file: &str, call: &str, ending: &str) -> io::Result<()> {
    let names = fs::read_to_string(rt, file)?;
    let cases = cases_of(rt.alloc(), call)?;
    for case in &cases {
        for line in names.lines() {
            tell_example(rt, case.words.as_slice(), line, ending)?;
        }
    }
    Ok(())
}

/// Whether the cases of a sheet have their answers, a line for each, where they are answered by parts or else by the top call.
fn sheet_text(
    alloc: Global,
    is_of_parts: bool,
    name: &str,
    sheet: &[u8],
) -> Result<Vec<u8>, AllocError> {
    let mut text = Vec::new(alloc);
    let cases = cases_of(alloc, str::from_utf8(sheet).unwrap_or(""))?;
    for case in &cases {
        let told = if is_of_parts {
            part_told(alloc, name, case)?
        } else {
            call_told(alloc, case)?
        };
        let is_met = case.is_met(told.status, told.bytes.as_slice());
        push_case(&mut text, name, case, is_met, &told);
    }
    Ok(text)
}

/// Answers the cases of the sheets that this file names.
fn tell_sheets(rt: &HostRuntime, is_of_parts: bool, file: &str) -> io::Result<()> {
    let names = fs::read_to_string(rt, file)?;
    for name in names.lines() {
        let sheet = bytes_of(rt, name, "sheet")?;
        let text = sheet_text(rt.alloc(), is_of_parts, name, sheet.as_slice())?;
        tell(rt, text.as_slice())?;
    }
    Ok(())
}

/// Appends whether worked values are what they should be.
fn push_worked(text: &mut Vec<u8>, name: &[u8], is_met: bool) {
    say(text, name);
    if is_met {
        say(text, b" are as they should be\n");
    } else {
        say(text, b" ARE NOT AS THEY SHOULD BE\n");
    }
}

/// Appends whether worked values are what they should be.
fn push_all_worked<R: Threads + Wait + Sync>(
    text: &mut Vec<u8>,
    rt: &R,
    alloc: Global,
) -> Result<(), AllocError> {
    push_worked(text, b"numbers", numbers::are_right());
    push_worked(text, b"words", words::are_right());
    push_worked(text, b"control words", control_words::are_right());
    push_worked(text, b"streams", streams::are_right(alloc)?);
    push_worked(text, b"processors", serving::are_right(rt));
    Ok(())
}

/// Whether the cases of the sheets whose work processors share, and those of landings, have their answers, and whether worked values are what
/// they should be.
fn last_text<R: Threads + Wait + Sync>(
    rt: &R,
    alloc: Global,
    shared: &[u8],
    landings: &[u8],
) -> Result<Vec<u8>, AllocError> {
    let mut text = shared_text(rt, alloc, shared)?;
    push_landings(&mut text, rt, alloc, landings)?;
    push_all_worked(&mut text, rt, alloc)?;
    Ok(text)
}

/// Answers the examples, the texts of code, and the cases of all sheets but two.
fn tell_all_sheets(rt: &HostRuntime) -> io::Result<()> {
    tell_examples(rt, "examples", EXAMPLE, "alg")?;
    tell_examples(rt, "codes", CODE, "asm")?;
    tell_sheets(rt, false, "sheets")?;
    tell_sheets(rt, true, "parts")
}

fn main(rt: HostRuntime) -> io::Result<()> {
    tell_all_sheets(&rt)?;
    let shared = bytes_of(&rt, "shared", "sheet")?;
    let landings = bytes_of(&rt, "landings", "sheet")?;
    let text = last_text(&rt, rt.alloc(), shared.as_slice(), landings.as_slice())?;
    tell(&rt, text.as_slice())
}

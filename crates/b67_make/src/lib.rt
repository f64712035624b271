//! A source from a number: its run adds up the numbers from 1 to that one, and writes the sum.
#![tactic(auto)]

ghost use Rattle.std.specs.Prelude.{◌≡◌, ◌++◌, ◌^◌, ◌+◌, ◌<◌, ◌≤◌, ℕ, length, IfOk, OnOk};
ghost use Rattle.std.specs.List.{flat_map, range_with_len};
ghost use Rattle.b67_make.specs.Made.{line, adder, group, groups_of, made};
ghost use Rattle.b67_make.specs.declared.TheConstants.{MOST_ADDED};

use b67_list::push_number;
use std::alloc::{AllocError, Global};

/// How many numbers a group has at most.
pub const MOST_ADDED: u64 = 50;

/// Law: a source that is made from a number up to 500 has at most 30,000 bytes.
pub fn made_sources_are_short()
    ensures { (n : ℕ) → n ≤ 500 → length (made n) ≤ 30000 }
{}

/// The source that is made from a number.
///
/// Each of the numbers from 1 on is added by a procedure of its own. Fifty of them and less at the end are a group, which is a procedure
/// too: it starts a process that counts the group, adds its numbers and waits for that process. So the run writes one line, with the sum
/// of the numbers and the number of the groups.
pub fn make(alloc: Global, n: u32) -> Result<Vec<u8>, AllocError>
    ensures { IfOk result (λ text. text.items ≡ made n) }
{
    let groups = groups_of(n);
    let mut text = Vec::from_slice(
        alloc,
        b"BEGIN\nFILE LINE(KIND=PRINTER);\nINTEGER S,D;\nEVENT E;\n",
    )?;
    push_groups(&mut text, n, groups)?;
    push_each(&mut text, b"G", 0, groups, b";\n")?;
    text.extend_from_slice(b"WRITE(LINE,<I12,I12>,S,D)\nEND.\n")?;
    Ok(text)
}

/// How many groups the numbers up to that one are.
fn groups_of(n: u32) -> u64
    ensures count { result ≡ groups_of n }
    ensures few { result ≤ n }
{
    (u64::from(n) + MOST_ADDED - 1) / MOST_ADDED
}

/// Appends the procedures of so many groups.
fn push_groups(text: &mut Vec<u8>, n: u32, groups: u64) -> Result<(), AllocError>
    requires { groups < 2 ^ 32 }
    ensures { OnOk result (text.new.items ≡ text.old.items ++ flat_map (group n) (range_with_len 0 groups)) }
{
    'groups: for g in 0..groups {
        push_group(text, n, g)?;
    }
    Ok(())
}

/// Appends the procedure of a group.
fn push_group(text: &mut Vec<u8>, n: u32, g: u64) -> Result<(), AllocError>
    requires { g < 2 ^ 32 }
    ensures { OnOk result (text.new.items ≡ text.old.items ++ group n g) }
{
    let before = MOST_ADDED * g;
    let count = u64::from(n).saturating_sub(before).min(MOST_ADDED);
    push_number(text, b"PROCEDURE G", g)?;
    text.extend_from_slice(b"; BEGIN\nTASK T;\n")?;
    push_adders(text, before + 1, count)?;
    text.extend_from_slice(
        b"PROCEDURE R; BEGIN PROCURE(E); D:=D+1; LIBERATE(E) END;\nPROCESS R[T];\n",
    )?;
    push_each(text, b"P", before + 1, count, b"(S);\n")?;
    text.extend_from_slice(b"WAIT(T.EXCEPTIONEVENT)\nEND;\n")
}

/// Appends the procedures of so many numbers, from the first on.
fn push_adders(text: &mut Vec<u8>, first: u64, count: u64) -> Result<(), AllocError>
    requires { first + count < 2 ^ 64 }
    ensures { OnOk result (text.new.items ≡ text.old.items ++ flat_map adder (range_with_len first count)) }
{
    'numbers: for before in 0..count {
        push_adder(text, first + before)?;
    }
    Ok(())
}

/// Appends the procedure of a number.
fn push_adder(text: &mut Vec<u8>, number: u64) -> Result<(), AllocError>
    ensures { OnOk result (text.new.items ≡ text.old.items ++ adder number) }
{
    push_number(text, b"PROCEDURE P", number)?;
    push_number(text, b"(X); INTEGER X; X:=X+", number)?;
    text.extend_from_slice(b";\n")
}

/// Appends a line for each of so many numbers, from the first on, with these bytes before it and after it.
fn push_each(
    text: &mut Vec<u8>,
    start: &[u8],
    first: u64,
    count: u64,
    end: &[u8],
) -> Result<(), AllocError>
    requires { first + count < 2 ^ 64 }
    ensures { OnOk result (text.new.items ≡ text.old.items ++ flat_map (line start.now end.now) (range_with_len first count)) }
{
    'numbers: for before in 0..count {
        push_line(text, start, first + before, end)?;
    }
    Ok(())
}

/// Appends a line of a number, with these bytes before it and after it.
fn push_line(text: &mut Vec<u8>, start: &[u8], number: u64, end: &[u8]) -> Result<(), AllocError>
    ensures { OnOk result (text.new.items ≡ text.old.items ++ line start.now end.now number) }
{
    push_number(text, start, number)?;
    text.extend_from_slice(end)
}

/// Law: the number of this crate, which the text that is made is defined with. A group has fifty numbers, by this project's profile.
pub fn numbers_are_told()
    ensures { MOST_ADDED ≡ 50 }
{}

//! The words of a command line: the grammar of the commands, and which word of a list is the first that breaks it.
#![tactic(auto)]

ghost use Rattle.std.specs.Prelude.{◌≡◌, ◌≢◌, ◌+◌, ◌^◌, ◌<◌, ◌≤◌, ℕ, List, Result, map, length, codes, slice_get, slice_index, Some, IsTrue, ◌↔◌};
ghost use Rattle.std.specs.String.{string_bytes};
ghost use Rattle.b67_limits.specs.declared.TheConstants.{MOST_BUDGET, MOST_PROCESSORS};
ghost use Rattle.b67_words.specs.declared.TheConstants.{MOST_SEED, MOST_TRIAL, MOST_ENTRIES, MOST_STATES};
ghost use Rattle.b67_words.specs.Grammar.{WordsMean, BeginWhole, IsWordNumber, IsNumberOrNone, IsFromZero, IsFromZeroOrNone, NumberStandsAt, IsRuleOrNone, RuleStandsAt};

use b67_limits::{MOST_BUDGET, MOST_PROCESSORS};
use thiserror::Error;

/// The greatest number of a rule that spreads the takes.
pub const MOST_SEED: u32 = 4_294_967_295;

/// The greatest number that a source is made from.
pub const MOST_TRIAL: u32 = 500;

/// The greatest number of entries after which a dump can be asked for.
pub const MOST_ENTRIES: u32 = 999_999_999;

/// The greatest number of states in which outcomes can be looked for.
pub const MOST_STATES: u64 = 1_000_000;

/// A rule of dispatch: which of those who wait for a processor is taken.
#[derive(Clone, Copy, PartialEq, Eq, Debug)]
pub enum Rule {
    /// `--rule=fifo`: who has waited longest.
    Fifo,
    /// `--rule=lifo`: who has waited shortest.
    Lifo,
    /// `--rule=seed:N`: anyone, as the number N spreads the takes, from 0 to [`MOST_SEED`].
    Seed(u32),
}

/// What is to be done with the source that is read.
#[derive(Clone, Copy)]
pub enum Task {
    /// `run P B` or `run P B --rule=R`: run it on P processors, from 1 to [`MOST_PROCESSORS`], with a budget of B operators,
    /// from 1 to [`MOST_BUDGET`], under a rule of dispatch, which is `fifo` where none is named.
    Run {
        processors: u32,
        budget: u64,
        rule: Rule,
    },
    /// `check`: say whether it is accepted.
    Check,
    /// `list`: print the listing of its code.
    List,
    /// `replay B`: run it under the schedule that stands after it, with a budget of B operators, from 1 to [`MOST_BUDGET`].
    Replay {
        budget: u64,
    },
    /// `judge`: say whether the report that stands after it is a report of it.
    Judge,
    /// `race`: say, of the report that stands after it, which entries of its schedule race, where it is a report of the source.
    Race,
    /// `dump K`: show its cells after the first K entries of the schedule that stands after it, K from 0 to [`MOST_ENTRIES`].
    Dump {
        entries: u32,
    },
    /// `console`: run it under the schedule that stands after it, and show what the commands after the schedule ask for.
    Console,
    /// `outcomes N`: tell what its runs can come to, under all schedules, keeping N states at most, from 1 to [`MOST_STATES`].
    Outcomes {
        most: u64,
    },
}

/// A command with what its words say.
#[derive(Clone, Copy)]
pub enum Words {
    /// A task with the source that is read.
    OnSource(Task),
    /// `exec B`: run the code that the input assembles to by turns, with a budget of B operators, from 1 to [`MOST_BUDGET`].
    Exec { budget: u64 },
    /// `trial N`: make a source from the number N, from 0 to [`MOST_TRIAL`], and run it.
    Trial { n: u32 },
}

/// What is wrong with the first word that breaks the grammar.
#[derive(Clone, Copy, Debug)]
pub enum UsageKind {
    /// The words end before it.
    Missing,
    /// It is no command.
    Unknown,
    /// A number in range, decimal and without sign and leading zeros, has to stand there.
    BadNumber,
    /// A rule has to stand there.
    BadRule,
    /// No word may stand there.
    Extra,
}

/// Why words are no command.
#[derive(Clone, Copy, Debug, Error)]
pub enum BadWords {
    /// The first word that breaks the grammar, counted from 1, and what is wrong with it.
    #[error("word {word} breaks the grammar of the commands: {kind:?}")]
    Usage { word: u32, kind: UsageKind },
}

/// Law: a list of words has one meaning. It is one command, or one word is the first that breaks the grammar, in one way.
pub fn words_have_one_meaning()
    ensures { (words : List (List ℕ)) (one other : Result Words BadWords) → WordsMean words one → WordsMean words other → one ≡ other }
{}

/// The command that the words are, or the first word that breaks the grammar. Takes no memory.
pub fn read_words(words: &[String]) -> Result<Words, BadWords>
    ensures { WordsMean (map string_bytes words.now) result }
{
    let Some(command) = words.first() else {
        return Err(BadWords::Usage {
            word: 1,
            kind: UsageKind::Missing,
        });
    };
    match command.as_str() {
        "run" => read_run(words),
        "check" => whole(words, 1, Words::OnSource(Task::Check)),
        "list" => whole(words, 1, Words::OnSource(Task::List)),
        "replay" => read_replay(words),
        "judge" => whole(words, 1, Words::OnSource(Task::Judge)),
        "race" => whole(words, 1, Words::OnSource(Task::Race)),
        "dump" => read_dump(words),
        "console" => whole(words, 1, Words::OnSource(Task::Console)),
        "outcomes" => read_outcomes(words),
        "exec" => read_exec(words),
        "trial" => read_trial(words),
        _ => Err(BadWords::Usage {
            word: 1,
            kind: UsageKind::Unknown,
        }),
    }
}

/// `run P B` or `run P B --rule=R`, where the first word is `run`.
fn read_run(words: &[String]) -> Result<Words, BadWords>
    requires { slice_get (map string_bytes words.now) 0 ≡ Some (codes "run") }
    ensures { WordsMean (map string_bytes words.now) result }
{
    let processors = number_at(words, 1, MOST_PROCESSORS)?;
    let budget = number_at(words, 2, MOST_BUDGET)?;
    let rule = rule_at(words)?;
    if words.len() > 4 {
        return Err(BadWords::Usage {
            word: 5,
            kind: UsageKind::Extra,
        });
    }
    Ok(Words::OnSource(Task::Run {
        processors: processors as u32,
        budget,
        rule,
    }))
}

/// `replay B`, where the first word is `replay`.
fn read_replay(words: &[String]) -> Result<Words, BadWords>
    requires { slice_get (map string_bytes words.now) 0 ≡ Some (codes "replay") }
    ensures { WordsMean (map string_bytes words.now) result }
{
    let budget = number_at(words, 1, MOST_BUDGET)?;
    whole(words, 2, Words::OnSource(Task::Replay { budget }))
}

/// `outcomes N`, where the first word is `outcomes`.
fn read_outcomes(words: &[String]) -> Result<Words, BadWords>
    requires { slice_get (map string_bytes words.now) 0 ≡ Some (codes "outcomes") }
    ensures { WordsMean (map string_bytes words.now) result }
{
    let most = number_at(words, 1, MOST_STATES)?;
    whole(words, 2, Words::OnSource(Task::Outcomes { most }))
}

/// `exec B`, where the first word is `exec`.
fn read_exec(words: &[String]) -> Result<Words, BadWords>
    requires { slice_get (map string_bytes words.now) 0 ≡ Some (codes "exec") }
    ensures { WordsMean (map string_bytes words.now) result }
{
    let budget = number_at(words, 1, MOST_BUDGET)?;
    whole(words, 2, Words::Exec { budget })
}

/// `trial N`, where the first word is `trial`.
fn read_trial(words: &[String]) -> Result<Words, BadWords>
    requires { slice_get (map string_bytes words.now) 0 ≡ Some (codes "trial") }
    ensures { WordsMean (map string_bytes words.now) result }
{
    let n = from_zero_at(words, MOST_TRIAL)?;
    whole(words, 2, Words::Trial { n })
}

/// `dump K`, where the first word is `dump`.
fn read_dump(words: &[String]) -> Result<Words, BadWords>
    requires { slice_get (map string_bytes words.now) 0 ≡ Some (codes "dump") }
    ensures { WordsMean (map string_bytes words.now) result }
{
    let entries = from_zero_at(words, MOST_ENTRIES)?;
    whole(words, 2, Words::OnSource(Task::Dump { entries }))
}

/// The command that so many of the first words are, if no other word follows them.
fn whole(words: &[String], count: u32, command: Words) -> Result<Words, BadWords>
    requires few { count < 9 }
    requires whole { BeginWhole (map string_bytes words.now) count command }
    ensures { WordsMean (map string_bytes words.now) result }
{
    if words.len() > count as usize {
        return Err(BadWords::Usage {
            word: count + 1,
            kind: UsageKind::Extra,
        });
    }
    Ok(command)
}

/// The number from 1 to `most` that is the word after `before` others.
fn number_at(words: &[String], before: u32, most: u64) -> Result<u64, BadWords>
    requires { before < 9 }
    ensures { NumberStandsAt (IsWordNumber most) (map string_bytes words.now) before result }
{
    let Some(word) = words.get(before as usize) else {
        return Err(BadWords::Usage {
            word: before + 1,
            kind: UsageKind::Missing,
        });
    };
    number_of(word.as_str(), most).ok_or(BadWords::Usage {
        word: before + 1,
        kind: UsageKind::BadNumber,
    })
}

/// The number from 0 to `most` that is the word after the first.
fn from_zero_at(words: &[String], most: u32) -> Result<u32, BadWords>
    ensures { NumberStandsAt (IsFromZero most) (map string_bytes words.now) 1 result }
{
    let Some(word) = words.get(1) else {
        return Err(BadWords::Usage {
            word: 2,
            kind: UsageKind::Missing,
        });
    };
    from_zero(word.as_str(), most).ok_or(BadWords::Usage {
        word: 2,
        kind: UsageKind::BadNumber,
    })
}

/// The number from 1 to `most` that the text is, decimal and without sign and leading zeros.
fn number_of(text: &str, most: u64) -> Option<u64>
    ensures { IsNumberOrNone most text.now result }
{
    if !begins_with_digit(text) {
        return None;
    }
    let Ok(number) = text.parse::<u64>() else {
        return None;
    };
    (number <= most).then_some(number)
}

/// Tests that the text begins with a digit other than 0.
fn begins_with_digit(text: &str) -> bool
    ensures { IsTrue result ↔ (49 ≤ slice_index text.now 0) × (slice_index text.now 0 ≤ 57) }
{
    matches!(text.as_bytes(), [b'1'..=b'9', ..])
}

/// The rule that the word after a budget names, first in, first out where there is none.
fn rule_at(words: &[String]) -> Result<Rule, BadWords>
    ensures { RuleStandsAt (map string_bytes words.now) result }
{
    let Some(word) = words.get(3) else {
        return Ok(Rule::Fifo);
    };
    rule_of(word.as_str()).ok_or(BadWords::Usage {
        word: 4,
        kind: UsageKind::BadRule,
    })
}

/// The rule that the text names.
fn rule_of(text: &str) -> Option<Rule>
    ensures { IsRuleOrNone text.now result }
{
    match text {
        "--rule=fifo" => Some(Rule::Fifo),
        "--rule=lifo" => Some(Rule::Lifo),
        _ => seed_rule(text),
    }
}

/// The rule of a number that the text names, where it is none of the others.
fn seed_rule(text: &str) -> Option<Rule>
    requires fifo { text.now ≢ codes "--rule=fifo" }
    requires lifo { text.now ≢ codes "--rule=lifo" }
    ensures { IsRuleOrNone text.now result }
{
    let Some(numeral) = text.strip_prefix("--rule=seed:") else {
        return None;
    };
    match from_zero(numeral, MOST_SEED) {
        Some(seed) => Some(Rule::Seed(seed)),
        None => None,
    }
}

/// The number from 0 to `most` that the text is, decimal and without sign and leading zeros.
fn from_zero(text: &str, most: u32) -> Option<u32>
    ensures { IsFromZeroOrNone most text.now result }
{
    match text {
        "0" => Some(0),
        _ => match number_of(text, u64::from(most)) {
            Some(number) => Some(number as u32),
            None => None,
        },
    }
}

/// Law: the numbers of this crate, which the words of a command are defined with: the greatest seed has 32 bits; the greatest numbers of a trial, of a
/// dump and of outcomes are of this project's profile, as docs/LANGUAGE.md has them.
pub fn numbers_are_told()
    ensures seed { MOST_SEED + 1 ≡ 2 ^ 32 }
    ensures trial { MOST_TRIAL ≡ 500 }
    ensures entries { MOST_ENTRIES ≡ 999999999 }
    ensures states { MOST_STATES ≡ 1000000 }
{}

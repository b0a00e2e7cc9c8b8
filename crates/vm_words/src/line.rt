ghost use Rattle.std.specs.Prelude.{◌≡◌, ◌≢◌, ◌<◌, ◌≤◌, map, string_bytes, length, slice_get, IsOk, IfOk, IfErr, IfSome, IfNone};
ghost use Rattle.vm_words.specs.Job.{job, HasSmallIndex, IsOfWords, IsUsageOf};
ghost use Rattle.vm_words.specs.Limits.{IsWithinLimits};
ghost use Rattle.vm_words.specs.Line.{faults, faults_by, kind_at, lacks_key, word_kind};

use crate::clash::first_clash;
use crate::form::is_of_form;
use crate::given::job_given;
use crate::{CommandName, Job, UsageKind, WordsFault, value_of};
use std::alloc::Global;

/// The job that words give, or the first that is wrong and how.
pub fn line_of(alloc: Global, words: &[String]) -> Result<Job, WordsFault>
    ensures job { IfOk result (λ made. job (map string_bytes words.now) ≡ Ok made) }
    ensures limits { IfOk result IsWithinLimits }
    ensures few { IsOk result → length words.now ≤ 13 }
    ensures usage { IfErr result (IsUsageOf (map string_bytes words.now)) }
    ensures index { IfErr result HasSmallIndex }
    ensures kind { IfErr result IsOfWords }
{
    let Some((name, rest)) = words.split_first() else {
        return Err(WordsFault::Usage {
            index: 0,
            kind: UsageKind::NoCommand,
        });
    };
    let Some(command) = CommandName::named(name.as_str()) else {
        return Err(WordsFault::Usage {
            index: 0,
            kind: UsageKind::Command,
        });
    };
    if let Some((index, kind)) = first_fault(command, rest) {
        return Err(WordsFault::Usage { index, kind });
    }
    match job_given(alloc, command, rest) {
        Ok(job) => Ok(job),
        Err(_) => Err(WordsFault::NoMemory),
    }
}

// The first fault of a line of this command: of a word, of what is missing, of what doesn't go together.
fn first_fault(command: CommandName, rest: &[String]) -> Option<(u32, UsageKind)>
    ensures fault { result ≡ slice_get (faults command (map string_bytes rest.now)) 0 }
    ensures few { IfNone result (length rest.now ≤ 12) }
    ensures index { IfSome result (λ fault. fault.0 < 16) }
    ensures kind { IfSome result (λ fault. fault.1 ≢ UsageKind.NeedsThreads) }
{
    if let Some(fault) = first_wrong_word(command, rest) {
        return Some(fault);
    }
    if lacks_key(command, rest) {
        return Some((rest.len() as u32 + 1, UsageKind::Missing));
    }
    first_clash(command, rest)
}

// The first word that is wrong by itself and the words before it. No key may stand twice, so few words pass.
fn first_wrong_word(command: CommandName, rest: &[String]) -> Option<(u32, UsageKind)>
    ensures fault { let words = map string_bytes rest.now in
        result ≡ slice_get (faults_by (kind_at command words) words) 0 }
    ensures index { IfSome result (λ fault. fault.0 < 16) }
    ensures kind { IfSome result (λ fault. fault.1 ≢ UsageKind.NeedsThreads) }
    ensures few { IfNone result (length rest.now ≤ 12) }
{
    for (i, word) in rest.iter().enumerate() {
        if let Some(kind) = word_kind(command, &rest[..i], word.as_str()) {
            return Some((i as u32 + 1, kind));
        }
    }
    None
}

// What is wrong with a word, with the words before it.
fn word_kind(command: CommandName, before: &[String], word: &str) -> Option<UsageKind>
    ensures value { result ≡ word_kind command (map string_bytes before.now) word.now }
    ensures kind { IfSome result (λ kind. kind ≢ UsageKind.NeedsThreads) }
{
    let Some((name, value)) = word.split_once('=') else {
        return Some(UsageKind::NoEquals);
    };
    let Some(key) = command.key(name) else {
        return Some(UsageKind::Key);
    };
    if value_of(before, key.text()).is_some() {
        return Some(UsageKind::Twice);
    }
    if !is_of_form(command, key, value) {
        return Some(UsageKind::Value);
    }
    None
}

// Whether some required key never came.
fn lacks_key(command: CommandName, rest: &[String]) -> bool
    ensures { result ≡ lacks_key command (map string_bytes rest.now) }
{
    command
        .required()
        .iter()
        .any(|key| value_of(rest, key.text()).is_none())
}

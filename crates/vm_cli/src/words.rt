ghost use Rattle.std.specs.Prelude.{◌≡◌, ◌+◌, ◌<◌, ◌^◌, None, Some, length, map, string_bytes, IfOk, IfErr};
ghost use Rattle.vm_cli.specs.Words.{forbidden_word, line_fault, mode_word, served_line, served_of, threads_word, IsFaultOfLine};
ghost use Rattle.vm_words.specs.Limits.{IsWithinLimits};

use crate::Fault;
use std::alloc::Global;
use vm_words::{Job, Mode, UsageKind, line_of};

/// Who runs a line.
#[derive(Clone, Copy, Debug, PartialEq, Eq)]
pub(crate) enum Caller {
    /// A call that starts no thread.
    Still,
    /// A call that may start threads.
    Threaded,
}

/// The job of the words, where the caller may do it.
#[tactic(auto, unfolding(crate::specs::Words::line_fault, crate::specs::Words::served_line))]
pub(crate) fn serve_line(alloc: Global, caller: Caller, words: &[String]) -> Result<Job, Fault>
    ensures ok { IfOk result (λ job. served_line (map string_bytes words.now) ≡ Some (served_of job)) }
    ensures limits { IfOk result IsWithinLimits }
    ensures no_fault { IfOk result (λ job. line_fault caller (map string_bytes words.now) ≡ None) }
    ensures allowed { IfOk result (λ job. forbidden_word caller (map string_bytes words.now) job ≡ None) }
    ensures fault { IfErr result (IsFaultOfLine caller (map string_bytes words.now)) }
{
    let job = line_of(alloc, words)?;
    if let Some(index) = forbidden_word(caller, words, &job) {
        return Err(Fault::Usage {
            index,
            kind: UsageKind::NeedsThreads,
        });
    }
    Ok(job)
}

// The word that asks for threads, where the caller starts none.
fn forbidden_word(caller: Caller, words: &[String], job: &Job) -> Option<u32>
    requires { length words.now < 2 ^ 32 }
    ensures { result ≡ forbidden_word caller (map string_bytes words.now) job.now }
{
    match caller {
        Caller::Still => threads_word(words, job),
        Caller::Threaded => None,
    }
}

// The word that asks for threads: that of the mode in a save, and the command itself in a record.
fn threads_word(words: &[String], job: &Job) -> Option<u32>
    requires { length words.now < 2 ^ 32 }
    ensures { result ≡ threads_word (map string_bytes words.now) job.now }
{
    match job {
        Job::Save {
            mode: Mode::Threads,
            ..
        } => Some(mode_word(0, words)),
        Job::Record { .. } => Some(0),
        _ => None,
    }
}

// The index of the first word of a mode, where so many words stand before these.
fn mode_word(before: u32, words: &[String]) -> u32
    requires { before + length words.now < 2 ^ 32 }
    ensures { result ≡ mode_word before (map string_bytes words.now) }
{
    match words.split_first() {
        Some((word, _)) if word.as_str().starts_with("mode=") => before,
        Some((_, rest)) => mode_word(before + 1, rest),
        None => 0,
    }
}

ghost use Rattle.std.specs.Prelude.{◌≡◌, ◌++◌, IfOk, List, ℕ, codes, string_bytes};
ghost use Rattle.front_end.specs.Lines.{refusal_text};
ghost use Rattle.unit_reports.specs.Report.{line};
ghost use Rattle.kani_mir.specs.Command.{all_units_succeed, is_successful, name_in, status_of, text_of, words_of};

use crate::answer::{Answer, FileWord};
use front_end::{Refusal, refusal_text};
use std::alloc::Global;
use unit_reports::{UnitReport, Verdict, report_text, verdict_of};
use vk_core::NoMemory;

/// The status that the program ends with after an answer.
pub fn status_of(answer: &Answer) -> u8
    ensures { result ≡ status_of answer.now }
{
    match answer {
        Answer::Usage => 64,
        Answer::Missing(_) => 4,
        Answer::ReadFault(_) => 4,
        Answer::TooLong(_) => 2,
        Answer::Refused(_) => 2,
        Answer::NotBuilt => 2,
        Answer::Report(reports) => {
            if all_units_succeed(reports.as_slice()) {
                0
            } else {
                1
            }
        }
    }
}

fn is_successful(report: &UnitReport) -> bool
    ensures { result ≡ is_successful report.now }
{
    matches!(verdict_of(report.statuses.as_slice()), Verdict::Successful)
}

fn all_units_succeed(reports: &[UnitReport]) -> bool
    ensures { result ≡ all_units_succeed reports.now }
{
    match reports {
        [] => true,
        [report, rest @ ..] => {
            if is_successful(report) {
                all_units_succeed(rest)
            } else {
                false
            }
        }
    }
}

/// The bytes of an answer.
#[tactic(auto, unfolding(crate::specs::Command::text_of))]
pub fn text_of(alloc: Global, words: &[String], answer: &Answer) -> Result<Vec<u8>, NoMemory>
    ensures { IfOk result (λ text. text.items ≡ text_of (words_of words.now) answer.now) }
{
    match answer {
        Answer::Usage => line(alloc, b"error: usage: NotBuilt", ""),
        Answer::Missing(word) => line(alloc, b"error: file: Missing ", name_in(words, *word)),
        Answer::ReadFault(word) => line(alloc, b"error: file: ReadFault ", name_in(words, *word)),
        Answer::TooLong(word) => line(alloc, b"error: file: TooLong ", name_in(words, *word)),
        Answer::Refused(refusal) => refusal_line(alloc, refusal),
        Answer::NotBuilt => line(alloc, b"error: input: NotBuilt", ""),
        Answer::Report(reports) => report_text(alloc, reports.as_slice()),
    }
}

/// The line of a refusal.
fn refusal_line(alloc: Global, refusal: &Refusal) -> Result<Vec<u8>, NoMemory>
    ensures { IfOk result (λ text. text.items ≡ line (refusal_text refusal.now)) }
{
    let mut text = refusal_text(alloc, refusal)?;
    text.push(b'\n')?;
    Ok(text)
}

/// A line of two texts.
fn line(alloc: Global, head: &[u8], name: &str) -> Result<Vec<u8>, NoMemory>
    ensures { IfOk result (λ text. text.items ≡ line (head.now ++ name.now)) }
{
    let mut text = Vec::from_slice(alloc, head)?;
    text.extend_from_slice(name.as_bytes())?;
    text.push(b'\n')?;
    Ok(text)
}

/// The name of a file, by the words.
fn name_in(words: &[String], word: FileWord) -> &str
    ensures { result.now ≡ name_in (words_of words.now) word }
{
    let at = match word {
        FileWord::Mir => 1,
        FileWord::Declarations => 2,
    };
    match words.get(at) {
        Some(name) => name.as_str(),
        None => "",
    }
}

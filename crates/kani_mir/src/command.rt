ghost use Rattle.std.specs.Prelude.{◌≡◌, ◌≤◌, ◌↔◌, ℕ, List, IfOk, IsTrue, MatchOption, codes, length, string_bytes};
ghost use Rattle.vk_files.specs.Causes.{Rose};
ghost use Rattle.kani_mir.specs.Command.{AreVerify, Concludes, Headline, IsFound, IsRight, text_of, words_of};
ghost use Rattle.kani_mir.specs.Told.{IsFoundBehind, IsRefusal};

use crate::answer::{Answer, FileWord};
use crate::judge::judge;
use crate::output::{status_of, text_of};
use sat_core::Effort;
use std::alloc::Global;
use vk_core::NoMemory;
use vk_files::{FileFault, Files, Sink, read_file, write_all};

/// The most bytes of a file.
const MAX_FILE: usize = 4_194_304;

/// Does what the words behind the program's name say, and answers the status that the program ends with.
pub fn run_command<F: Files, K: Sink>(
    alloc: Global,
    words: &[String],
    files: &mut F,
    out: &mut K,
    effort: &mut Effort,
) -> u8
    requires { effort.old ≡ 0 }
    ensures concludes { Concludes (IsRight (words_of words.now) (F.held files.old) (F.faults files.old) (F.faults files.new)) (text_of (words_of words.now)) (Rose (K.faults out.old) (K.faults out.new)) (K.written out.old) (K.written out.new) result }

    // Success means that no choices and no number of steps lead to a panic, a memory fault or a broken assertion.
    ensures headline { result ≡ 0 → Headline (words_of words.now) (F.held files.old) }

    // What the solver was given up on is only counted up.
    ensures later { effort.old ≤ effort.new }
{
    conclude(alloc, words, files, out, effort)
}

fn conclude<F: Files, K: Sink>(
    alloc: Global,
    words: &[String],
    files: &mut F,
    out: &mut K,
    effort: &mut Effort,
) -> u8
    ensures later { effort.old ≤ effort.new }
    ensures concludes { Concludes (IsRight (words_of words.now) (F.held files.old) (F.faults files.old) (F.faults files.new)) (text_of (words_of words.now)) (Rose (K.faults out.old) (K.faults out.new)) (K.written out.old) (K.written out.new) result }
{
    let answer = match answer_of(alloc, words, files, effort) {
        Ok(answer) => answer,
        Err(NoMemory) => return 3,
    };
    let text = match text_of(alloc, words, &answer) {
        Ok(text) => text,
        Err(NoMemory) => return 3,
    };
    match write_all(out, text.as_slice()) {
        Ok(()) => status_of(&answer),
        Err(_) => 5,
    }
}

/// What there is to tell for the words.
fn answer_of<F: Files>(
    alloc: Global,
    words: &[String],
    files: &mut F,
    effort: &mut Effort,
) -> Result<Answer, NoMemory>
    ensures later { effort.old ≤ effort.new }
    ensures right { IfOk result (IsRight (words_of words.now) (F.held files.old) (F.faults files.old) (F.faults files.new)) }
{
    match file_words(words) {
        None => Ok(Answer::Usage),
        Some((mir, declarations)) => {
            let answer = verify(alloc, mir.as_str(), declarations.as_str(), files, effort)?;
            Ok(answer)
        }
    }
}

/// The names of the two files, where the words are `verify MIR DECL`.
fn file_words(words: &[String]) -> Option<(&String, &String)>
    ensures { MatchOption result ((mir decl : List ℕ) → AreVerify (words_of words.now) mir decl → ⊥) (λ names. AreVerify (words_of words.now) (string_bytes names.0.now) (string_bytes names.1.now)) }
{
    match words {
        [command, mir, declarations] => {
            if is_verify(command.as_str()) {
                Some((mir, declarations))
            } else {
                None
            }
        }
        _ => None,
    }
}

fn is_verify(word: &str) -> bool
    ensures { IsTrue result ↔ (word.now ≡ codes "verify") }
{
    word == "verify"
}

/// What there is to tell of two files.
fn verify<F: Files>(
    alloc: Global,
    mir: &str,
    declarations: &str,
    files: &mut F,
    effort: &mut Effort,
) -> Result<Answer, NoMemory>
    ensures later { effort.old ≤ effort.new }
    ensures found { IfOk result (IsFound (F.held files.old mir.now) (F.held files.old declarations.now) (F.faults files.old) (F.faults files.new)) }
{
    match read_file(alloc, files, mir, MAX_FILE) {
        Ok(text) => {
            let answer = verify_text(alloc, text.as_slice(), declarations, files, effort)?;
            Ok(answer)
        }
        Err(fault) => {
            let answer = refusal(FileWord::Mir, fault)?;
            Ok(answer)
        }
    }
}

/// What there is to tell of a text and a declaration file.
fn verify_text<F: Files>(
    alloc: Global,
    text: &[u8],
    declarations: &str,
    files: &mut F,
    effort: &mut Effort,
) -> Result<Answer, NoMemory>
    requires { length text.now ≤ 4194304 }
    ensures later { effort.old ≤ effort.new }
    ensures found { IfOk result (IsFoundBehind text.now (F.held files.old declarations.now) (F.faults files.old) (F.faults files.new)) }
{
    match read_file(alloc, files, declarations, MAX_FILE) {
        Ok(bytes) => {
            let answer = judge(alloc, text, bytes.as_slice(), effort)?;
            Ok(answer)
        }
        Err(fault) => {
            let answer = refusal(FileWord::Declarations, fault)?;
            Ok(answer)
        }
    }
}

/// What there is to tell of a file that was not read.
fn refusal(word: FileWord, fault: FileFault) -> Result<Answer, NoMemory>
    ensures { IsRefusal word fault result }
{
    match fault {
        FileFault::Missing => Ok(Answer::Missing(word)),
        FileFault::Failed => Ok(Answer::ReadFault(word)),
        FileFault::TooLong => Ok(Answer::TooLong(word)),
        FileFault::Memory => Err(NoMemory),
    }
}

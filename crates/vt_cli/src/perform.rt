//! The top call: from words and an input to a status and an output.
ghost use Rattle.std.specs.Prelude.{List, ℕ, ◌≡◌, ◌≤◌, ◌<◌, ◌+◌, ◌⊎◌, true, false, IfOk, IfSome, OnOk, IsErrOf, length, Some};
ghost use Rattle.std.specs.Io.KnownBytes.{Appends};
ghost use Rattle.vt_io.specs.Faults.{HasCause, Rose};
ghost use Rattle.vt_cli.specs.Reading.{limit, part_read, part_left, ReadsNoFurther};
ghost use Rattle.vt_cli.specs.Ending.{AppendsPart, IsDecided, IsAnswerFormed, ExactlyWhere};
ghost use Rattle.vt_cli.specs.Outcome.{AnswerView, wants_input, usage, heard};
ghost use Rattle.vt_cli.specs.Commands.{IsInLimits, command_of};
ghost use Rattle.vt_cli.specs.Words.{HaveFaultyAnswer, IsNoCommand, HaveBadSession, WantInput, WantNoInput, WantTooMuch, bytes_of, outcome_of_words};

use crate::answer::{Answer, answer_of};
use crate::command::wants_input;
use crate::transfer::{ReadError, read_all, write_all};
use crate::words::{WordsFault, read_words};
use crate::{Command, Status};
use std::alloc::{AllocGlobal, Global};
use vt_frac::NoMemory;
use vt_io::{Sink, Source};

/// The command that the words are, if they are one.
fn command_of(alloc: Global, words: &[String]) -> Result<Option<Command>, NoMemory>
    ensures command { IfOk result (λ command. command ≡ command_of (bytes_of words.now)) }
    ensures within { IfOk result (λ command. IfSome command IsInLimits) }
{
    match read_words(alloc, words) {
        Ok(command) => Ok(Some(command)),
        Err(WordsFault::Usage) => Ok(None),
        Err(WordsFault::NoMemory) => Err(NoMemory),
    }
}

/// The bytes that count, as far as they are read.
fn input_of<S: Source>(
    alloc: Global,
    command: Option<Command>,
    src: &mut S,
) -> Result<Vec<u8>, ReadError>
    ensures bytes { IfOk result (λ bytes. IfSome (S.left src.old) (λ input. bytes.items ≡ part_read (heard command input))) }
    ensures heard { IfOk result (λ bytes. bytes.items ≡ heard command bytes.items) }
    ensures unread { wants_input command ≡ false → src.new ≡ src.old }
    ensures rest { OnOk result (wants_input command ≡ true → IfSome (S.left src.old) (λ input. S.left src.new ≡ Some (part_left input))) }
    ensures no_further { IfSome (S.left src.old) (λ input. ReadsNoFurther input (S.left src.new)) }
    ensures later { S.faults src.old ≤ S.faults src.new }
    ensures failed { IsErrOf result ReadError.Failed → (wants_input command ≡ true) × Rose (S.faults src.old) (S.faults src.new) }
{
    if wants_input(command) {
        read_all(alloc, src)
    } else {
        Ok(Vec::new(alloc))
    }
}

/// The answer that is due, whole in memory.
fn due<S: Source>(alloc: Global, words: &[String], src: &mut S) -> Result<Answer, ReadError>
    ensures answer { IfOk result (λ a. IfSome (S.left src.old) (λ input. a ≡ outcome_of_words words.now input)) }
    ensures some_input { IfOk result (λ a. (input : List ℕ) × (a ≡ outcome_of_words words.now input)) }
    ensures decided { IfOk result (λ a. IsDecided a.status) }
    ensures usage { IfOk result (λ a. IsNoCommand words.now → a ≡ usage) }
    ensures usage_only { IfOk result (λ a. a.status ≡ Status.Usage → IsNoCommand words.now) }
    ensures unread { WantNoInput words.now → src.new ≡ src.old }
    ensures rest { OnOk result (WantInput words.now
        → IfSome (S.left src.old) (λ input. S.left src.new ≡ Some (part_left input))) }
    ensures no_further { IfSome (S.left src.old) (λ input. ReadsNoFurther input (S.left src.new)) }
    ensures later { S.faults src.old ≤ S.faults src.new }
    ensures failed { IsErrOf result ReadError.Failed → WantInput words.now
        × Rose (S.faults src.old) (S.faults src.new) }
{
    let command = command_of(alloc, words)?;
    let input = input_of(alloc, command, src)?;
    Ok(answer_of(alloc, command, &input)?)
}

/// Writes an answer. A write fault replaces its status.
fn deliver<K: Sink>(out: &mut K, answer: &Answer) -> Status
    requires { IsDecided answer.now.status }
    ensures ends { (result ≡ answer.now.status) ⊎ (result ≡ Status.WriteFault) }
    ensures all { IsDecided result → (result ≡ answer.now.status) × Appends (K.taken out.old) (K.taken out.new) answer.now.text }
    ensures part { result ≡ Status.WriteFault → Rose (K.faults out.old) (K.faults out.new)
        × AppendsPart (K.taken out.old) (K.taken out.new) answer.now.text }
    ensures later { K.faults out.old ≤ K.faults out.new }
{
    match write_all(out, answer.text()) {
        Ok(()) => answer.status(),
        Err(_) => Status::WriteFault,
    }
}

/// All that the program does: it takes the words after the program's name, reads from the source, writes to
/// the sink, and answers the status.
pub fn perform<X: AllocGlobal, S: Source, K: Sink>(
    rt: &X,
    words: &[String],
    src: &mut S,
    out: &mut K,
) -> Status
    // The headline: what was written is exactly the text, and the status exactly the status, of the outcome.
    ensures answer { IsDecided result → IfSome (S.left src.old) (λ input.
        (result ≡ (outcome_of_words words.now input).status)
        × Appends (K.taken out.old) (K.taken out.new) (outcome_of_words words.now input).text) }

    // Also where the source tells nothing, status and text are those of one and the same input.
    ensures some_input { IsDecided result → (input : List ℕ)
        × (result ≡ (outcome_of_words words.now input).status)
        × Appends (K.taken out.old) (K.taken out.new) (outcome_of_words words.now input).text }

    // Where no count rose, it is that, or memory was wanting.
    ensures complete { ¬ Rose (S.faults src.old) (S.faults src.new) → ¬ Rose (K.faults out.old) (K.faults out.new)
        → IsDecided result ⊎ (result ≡ Status.NoMemory) }

    // Usage, whatever source and sink tell.
    ensures usage { ExactlyWhere result Status.Usage (IsNoCommand words.now) }
    ensures usage_text { result ≡ Status.Usage → Appends (K.taken out.old) (K.taken out.new) usage.text }

    // How far it reads.
    ensures unread { WantNoInput words.now → src.new ≡ src.old }
    ensures reads_all { IsAnswerFormed result → WantInput words.now
        → IfSome (S.left src.old) (λ input. S.left src.new ≡ Some (part_left input)) }
    ensures no_further { IfSome (S.left src.old) (λ input. ReadsNoFurther input (S.left src.new)) }

    // The answers that are no outcome, and their causes.
    ensures read_fault { result ≡ Status.ReadFault → WantInput words.now
        × Rose (S.faults src.old) (S.faults src.new) }
    ensures write_fault { result ≡ Status.WriteFault → Rose (K.faults out.old) (K.faults out.new) }
    ensures write_fault_part { result ≡ Status.WriteFault → IfSome (S.left src.old) (λ input.
        AppendsPart (K.taken out.old) (K.taken out.new) (outcome_of_words words.now input).text) }
    ensures write_fault_some { result ≡ Status.WriteFault → (input : List ℕ)
        × AppendsPart (K.taken out.old) (K.taken out.new) (outcome_of_words words.now input).text }
    ensures write_fault_usage { result ≡ Status.WriteFault → IsNoCommand words.now
        → AppendsPart (K.taken out.old) (K.taken out.new) usage.text }
    ensures unwritten { (result ≡ Status.ReadFault) ⊎ (result ≡ Status.NoMemory) → out.new ≡ out.old }

    // The refusals of the input.
    ensures too_long { IfSome (S.left src.old) (λ input.
        ExactlyWhere result Status.TooLong (WantTooMuch words.now input)) }
    ensures bad_session { IfSome (S.left src.old) (λ input.
        ExactlyWhere result Status.BadSession (HaveBadSession words.now input)) }
    ensures faulty { IfSome (S.left src.old) (λ input.
        ExactlyWhere result Status.Faulty (HaveFaultyAnswer words.now input)) }

    // The counts never fall.
    ensures source_later { S.faults src.old ≤ S.faults src.new }
    ensures sink_later { K.faults out.old ≤ K.faults out.new }
{
    match due(rt.alloc(), words, src) {
        Ok(answer) => deliver(out, &answer),
        Err(ReadError::Failed) => Status::ReadFault,
        Err(ReadError::NoMemory) => Status::NoMemory,
    }
}

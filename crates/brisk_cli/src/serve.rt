//! All that the program does.
ghost use Rattle.std.specs.Prelude.{◌≡◌, ◌∷◌, [], IfSome, codes, map};
ghost use Rattle.std.specs.String.{string_bytes};
ghost use Rattle.brisk_io.specs.Causes.{Rose};
ghost use Rattle.brisk_cli.specs.Answers.{Answered, IfAnswer, IsDueFor, IsServed, OfWords, Replies};
ghost use Rattle.brisk_cli.specs.Commands.{command_of};
ghost use Rattle.brisk_cli.specs.Decided.{RefusalsAreShown};
ghost use Rattle.brisk_cli.specs.Headline.{Headline};

use crate::answer::{Answer, Stopped};
use crate::commands::{check, derive, order, rewrite, run};
use crate::drilled::drill;
use crate::files::write_all;
use crate::status::Status;
use brisk_io::{Folder, Sink};
use brisk_values::NoMemory;
use std::alloc::Global;

// The answer for words that have no form.
fn usage(alloc: Global) -> Result<Answer, Stopped>
    ensures { IfAnswer (λ status text. (status ≡ Status.Usage) × (text ≡ codes "usage\n")) result }
{
    Ok(Answer::new(alloc, Status::Usage, b"usage\n")?)
}

// What is answered for two words.
fn of_two<F: Folder>(
    alloc: Global,
    folder: &mut F,
    word: &str,
    first: &str,
) -> Result<Answer, Stopped>
    ensures due { IfAnswer (λ status text. IsDueFor (command_of (word.now ∷ first.now ∷ [])) (F.misses folder.old) (F.misses folder.new) (F.faults folder.old) (F.faults folder.new) status) result }
    ensures told { IfSome (F.files folder.old) (λ files. IfAnswer (Replies (F.faults folder.old) (F.faults folder.new) (OfWords (command_of (word.now ∷ first.now ∷ [])) files)) result) }
{
    if word == "rewrite" {
        return rewrite(alloc, folder, first);
    }
    if word == "derive" {
        return derive(alloc, folder, first);
    }
    drill(alloc, word, first)
}

// What is answered for three words.
fn of_three<F: Folder>(
    alloc: Global,
    folder: &mut F,
    word: &str,
    first: &str,
    second: &str,
) -> Result<Answer, Stopped>
    ensures due { IfAnswer (λ status text. IsDueFor (command_of (word.now ∷ first.now ∷ second.now ∷ [])) (F.misses folder.old) (F.misses folder.new) (F.faults folder.old) (F.faults folder.new) status) result }
    ensures told { IfSome (F.files folder.old) (λ files. IfAnswer (Replies (F.faults folder.old) (F.faults folder.new) (OfWords (command_of (word.now ∷ first.now ∷ second.now ∷ [])) files)) result) }
{
    if word == "run" {
        return run(alloc, folder, first, second);
    }
    if word == "order" {
        return order(alloc, folder, first, second);
    }
    usage(alloc)
}

// What is answered for four words.
fn of_four<F: Folder>(
    alloc: Global,
    folder: &mut F,
    word: &str,
    first: &str,
    second: &str,
    third: &str,
) -> Result<Answer, Stopped>
    ensures due { IfAnswer (λ status text. IsDueFor (command_of (word.now ∷ first.now ∷ second.now ∷ third.now ∷ [])) (F.misses folder.old) (F.misses folder.new) (F.faults folder.old) (F.faults folder.new) status) result }
    ensures told { IfSome (F.files folder.old) (λ files. IfAnswer (Replies (F.faults folder.old) (F.faults folder.new) (OfWords (command_of (word.now ∷ first.now ∷ second.now ∷ third.now ∷ [])) files)) result) }
{
    if word == "check" {
        return check(alloc, folder, first, second, third);
    }
    usage(alloc)
}

// What is answered for words.
fn of_words<F: Folder>(alloc: Global, words: &[String], folder: &mut F) -> Result<Answer, Stopped>
    ensures due { IfAnswer (λ status text. IsDueFor (command_of (map string_bytes words.now)) (F.misses folder.old) (F.misses folder.new) (F.faults folder.old) (F.faults folder.new) status) result }
    ensures told { IfSome (F.files folder.old) (λ files. IfAnswer (Replies (F.faults folder.old) (F.faults folder.new) (OfWords (command_of (map string_bytes words.now)) files)) result) }
{
    match words {
        [word, first] => of_two(alloc, folder, word.as_str(), first.as_str()),
        [word, first, second] => of_three(
            alloc,
            folder,
            word.as_str(),
            first.as_str(),
            second.as_str(),
        ),
        [word, first, second, third] => of_four(
            alloc,
            folder,
            word.as_str(),
            first.as_str(),
            second.as_str(),
            third.as_str(),
        ),
        _ => usage(alloc),
    }
}

// Makes the whole answer, and then writes it.
fn answer_words<F: Folder, O: Sink>(
    alloc: Global,
    words: &[String],
    folder: &mut F,
    out: &mut O,
) -> Status
    ensures missing { result ≡ Status.NoFile → Rose (F.misses folder.old) (F.misses folder.new) }
    ensures failed { result ≡ Status.ReadFault → Rose (F.faults folder.old) (F.faults folder.new) }
    ensures write { result ≡ Status.WriteFault → Rose (O.faults out.old) (O.faults out.new) }
    ensures usage { IsServed (command_of (map string_bytes words.now)) result }
    ensures answered { Answered (map string_bytes words.now) (F.files folder.old) (F.faults folder.old) (F.faults folder.new) (O.written out.old) (O.written out.new) result }
{
    let answer = match of_words(alloc, words, folder) {
        Ok(answer) | Err(Stopped::Told(answer)) => answer,
        Err(Stopped::NoMemory) => return Status::NoMemory,
    };
    match write_all(out, &answer.text) {
        Ok(()) => answer.status,
        Err(_) => Status::WriteFault,
    }
}

/// Does all that the program does with the words after its name.
///
/// The whole answer is made before its first byte is written, and from then on no memory is taken. Where memory runs
/// out before, nothing is written.
pub fn serve<F: Folder, O: Sink>(
    alloc: Global,
    words: &[String],
    folder: &mut F,
    out: &mut O,
) -> Status
    ensures missing { result ≡ Status.NoFile → Rose (F.misses folder.old) (F.misses folder.new) }
    ensures failed { result ≡ Status.ReadFault → Rose (F.faults folder.old) (F.faults folder.new) }
    ensures write { result ≡ Status.WriteFault → Rose (O.faults out.old) (O.faults out.new) }
    // `Usage` exactly where the words have no form
    ensures usage { IsServed (command_of (map string_bytes words.now)) result }
    // what is written is the answer for the words and the files; a read is said to have failed only where one did
    ensures answered { Answered (map string_bytes words.now) (F.files folder.old) (F.faults folder.old) (F.faults folder.new) (O.written out.old) (O.written out.new) result }
    // what `rewrite` writes with the status of success, and what `check` takes, is faithful to the processes
    ensures faithful { Headline (map string_bytes words.now) (F.files folder.old) (O.written out.old) (O.written out.new) result }
    // a straight program is refused only with a schedule into its deadlock, and a star with one or with one in which a member overtakes
    ensures decided { RefusalsAreShown (map string_bytes words.now) (F.files folder.old) (O.written out.old) (O.written out.new) result }
{
    answer_words(alloc, words, folder, out)
}

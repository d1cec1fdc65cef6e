//! A session as a whole.
ghost use Rattle.std.specs.Prelude.{◌≡◌, ◌+◌, ◌<◌, ◌≤◌, ℕ, Bool, List, Option, Ok, Err, Some, IfErr, IsErr};
ghost use Rattle.std.specs.Option.{ForSome};
ghost use Rattle.command_line.specs.Lines.{texts};
ghost use Rattle.survey_core.specs.Commands.{read, commands_of};
ghost use Rattle.survey_core.specs.Sessions.{effect};
ghost use Rattle.survey_core.specs.Steps.{Cause};
ghost use Rattle.survey_core.specs.Carrying.{Step, SettledBy, HasCount};
ghost use Rattle.survey_core.specs.Answers.{session_status};
ghost use Rattle.survey_core.specs.Ends.{EndTells, SessionEndCause};
ghost use Rattle.survey_core.specs.Headline.{IsSurveyRunOf, seen_of_source, seen_of_keeper, seen_of_sink};

use crate::catalogue::read_catalogue;
use crate::fault::{Fault, Stop};
use crate::listing::list;
use crate::notes::tell;
use crate::ranking::brightest;
use crate::words::{Command, Usage, command_at, command_words, word_at_fault};
use crate::{Field, Keeper};
use dev_io::{Sink, Source};
use std::alloc::Global;

/// How a session ends.
#[derive(Clone, Copy)]
pub(crate) enum End {
    Done,
    Usage(Usage),
    Stopped(Stop),
}

impl End {
    fn status(self) -> u8
        ensures { result ≡ session_status self }
    {
        match self {
            End::Done => 0,
            End::Usage(_) => 1,
            End::Stopped(Stop::Refused(_)) => 2,
            End::Stopped(Stop::ReadFault) => 3,
            End::Stopped(Stop::WriteFault) => 4,
            End::Stopped(Stop::NoMemory) => 5,
            End::Stopped(Stop::KeeperFault) => 6,
        }
    }
}

fn add<S: Source, K: Keeper>(
    alloc: Global,
    field: Field,
    input: &mut S,
    keeper: &mut K,
) -> Result<(), Stop>
    ensures told { ForSome (S.left input.old) (λ bytes. ForSome (K.tables keeper.old) (λ tables. (written : Option (List ℕ)) →
        Step (effect bytes tables (Command.Add field)) (Command.Add field) bytes tables (S.left input.new) (K.tables keeper.new)
        written written result)) }
    ensures cause { IfErr result (λ stop. (sink : ℕ) →
        Cause (Command.Add field) (S.faults input.old) (S.faults input.new) sink sink (K.faults keeper.old) (K.faults keeper.new) stop) }
    ensures settled { (settled : Bool) → SettledBy (Command.Add field) settled settled result }
    ensures read_later { S.faults input.old ≤ S.faults input.new }
    ensures keep_later { K.faults keeper.old ≤ K.faults keeper.new }
{
    let cells = match read_catalogue(alloc, input) {
        Ok(cells) => cells,
        Err(stop) => return Err(stop),
    };
    match keeper.replace(alloc, field, &cells) {
        Ok(()) => Ok(()),
        Err(refused) => Err(Stop::at_keeper(refused)),
    }
}

fn remove<K: Keeper>(alloc: Global, field: Field, keeper: &mut K) -> Result<(), Stop>
    ensures told { (bytes : List ℕ) → ForSome (K.tables keeper.old) (λ tables. (written : Option (List ℕ)) →
        Step (effect bytes tables (Command.Drop field)) (Command.Drop field) bytes tables (Some bytes) (K.tables keeper.new)
        written written result) }
    ensures cause { IfErr result (λ stop. (source sink : ℕ) →
        Cause (Command.Drop field) source source sink sink (K.faults keeper.old) (K.faults keeper.new) stop) }
    ensures settled { (settled : Bool) → SettledBy (Command.Drop field) settled settled result }
    ensures keep_later { K.faults keeper.old ≤ K.faults keeper.new }
{
    match keeper.remove(alloc, field) {
        Ok(true) => Ok(()),
        Ok(false) => Err(Stop::Refused(Fault::NoSuchField)),
        Err(refused) => Err(Stop::at_keeper(refused)),
    }
}

fn carry_out<S: Source, K: Keeper, O: Sink>(
    alloc: Global,
    command: Command,
    input: &mut S,
    keeper: &mut K,
    output: &mut O,
) -> Result<(), Stop>
    requires { HasCount command }
    ensures told { ForSome (S.left input.old) (λ bytes. ForSome (K.tables keeper.old) (λ tables.
        Step (effect bytes tables command) command bytes tables (S.left input.new) (K.tables keeper.new)
        (O.written output.old) (O.written output.new) result)) }
    ensures cause { IfErr result (Cause command (S.faults input.old) (S.faults input.new)
        (O.faults output.old) (O.faults output.new) (K.faults keeper.old) (K.faults keeper.new)) }
    ensures settled { SettledBy command (O.settled output.old) (O.settled output.new) result }
    ensures read_later { S.faults input.old ≤ S.faults input.new }
    ensures write_later { O.faults output.old ≤ O.faults output.new }
    ensures keep_later { K.faults keeper.old ≤ K.faults keeper.new }
{
    match command {
        Command::Add(field) => add(alloc, field, input, keeper),
        Command::Drop(field) => remove(alloc, field, keeper),
        Command::List => list(alloc, keeper, output),
        Command::Brightest(most) => brightest(alloc, most, keeper, output),
    }
}

// Goes through the commands.
fn session<S: Source, K: Keeper, O: Sink>(
    alloc: Global,
    words: &[&str],
    input: &mut S,
    keeper: &mut K,
    output: &mut O,
) -> End
    ensures told { (commands : List Command) → read (texts words.now) ≡ Ok commands →
        ForSome (S.left input.old) (λ bytes. ForSome (K.tables keeper.old) (λ tables.
        EndTells (Ok commands) bytes tables (S.left input.new) (K.tables keeper.new)
        (O.written output.old) (O.written output.new) (O.settled output.new) result)) }
    ensures cause { (commands : List Command) → read (texts words.now) ≡ Ok commands →
        SessionEndCause (Ok commands) (O.settled output.new) (S.faults input.old) (S.faults input.new)
        (O.faults output.old) (O.faults output.new) (K.faults keeper.old) (K.faults keeper.new) result }
    ensures read_later { S.faults input.old ≤ S.faults input.new }
    ensures write_later { O.faults output.old ≤ O.faults output.new }
    ensures keep_later { K.faults keeper.old ≤ K.faults keeper.new }
{
    let mut at = 0;
    while let Ok(command) = command_at(words, at) {
        let width = command.width();
        if let Err(stop) = carry_out(alloc, command, input, keeper, output) {
            return End::Stopped(stop);
        }
        at += width;
    }
    End::Done
}

fn work<S: Source, K: Keeper, O: Sink>(
    alloc: Global,
    words: &[&str],
    input: &mut S,
    keeper: &mut K,
    output: &mut O,
) -> End
    ensures told { ForSome (S.left input.old) (λ bytes. ForSome (K.tables keeper.old) (λ tables.
        EndTells (commands_of (texts words.now)) bytes tables (S.left input.new) (K.tables keeper.new)
        (O.written output.old) (O.written output.new) (O.settled output.new) result)) }
    ensures cause { SessionEndCause (commands_of (texts words.now)) (O.settled output.new) (S.faults input.old) (S.faults input.new)
        (O.faults output.old) (O.faults output.new) (K.faults keeper.old) (K.faults keeper.new) result }
    ensures input_stays { IsErr (commands_of (texts words.now)) →
        seen_of_source S.left S.ended S.faults input.new ≡ seen_of_source S.left S.ended S.faults input.old }
    ensures keeper_stays { IsErr (commands_of (texts words.now)) → seen_of_keeper K.tables K.faults keeper.new ≡ seen_of_keeper K.tables K.faults keeper.old }
    ensures output_stays { IsErr (commands_of (texts words.now)) →
        seen_of_sink O.written O.settled O.faults output.new ≡ seen_of_sink O.written O.settled O.faults output.old }
    ensures read_later { S.faults input.old ≤ S.faults input.new }
    ensures write_later { O.faults output.old ≤ O.faults output.new }
    ensures keep_later { K.faults keeper.old ≤ K.faults keeper.new }
{
    match word_at_fault(words) {
        Some(usage) => End::Usage(usage),
        None => session(alloc, command_words(words), input, keeper, output),
    }
}

/// Goes through the commands that the words give: `add FIELD` reads the next catalogue of the input, `drop FIELD` takes a field out, `list`
/// prints a line for each field, and `brightest K` the K rows with the greatest fluxes. The words may begin with `--file` and a path, which
/// are for the caller (`path_of`): here they are passed over.
///
/// The status is 0 where all was done, 1 where a word is at fault, 2 at the first fault of a command, 3 at a read fault, 4 at a write fault,
/// 5 where memory is wanted and 6 where the keeper fails. What the commands before a fault did stands. Output comes in pieces of at most
/// 2,880 bytes, none of a command before its memory is taken. The notes get one line where the status isn't 0.
pub fn run_survey<S: Source, K: Keeper, O: Sink, N: Sink>(
    alloc: Global,
    words: &[&str],
    input: &mut S,
    keeper: &mut K,
    output: &mut O,
    notes: &mut N,
) -> u8
    ensures { IsSurveyRunOf (texts words.now) result
        (seen_of_source S.left S.ended S.faults input.old)
        (seen_of_source S.left S.ended S.faults input.new)
        (seen_of_keeper K.tables K.faults keeper.old)
        (seen_of_keeper K.tables K.faults keeper.new)
        (seen_of_sink O.written O.settled O.faults output.old)
        (seen_of_sink O.written O.settled O.faults output.new)
        (seen_of_sink N.written N.settled N.faults notes.old)
        (seen_of_sink N.written N.settled N.faults notes.new) }
{
    let end = work(alloc, words, input, keeper, output);
    tell(notes, end);
    end.status()
}

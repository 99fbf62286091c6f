ghost use Rattle.std.specs.Prelude.{map, string_bytes};
ghost use Rattle.mount_run.specs.Words.{IsJobWord, Tells};

use make_job::number_of_word;

/// What the program does with a job.
#[derive(Clone, Copy, Debug, PartialEq, Eq)]
pub enum JobCommand {
    /// Runs its scripts on the tree of its image, in the order of its schedule, and reports.
    Replay,
    /// Shows what the files of its image decode to.
    Show,
}

/// What the program does.
#[derive(Clone, Copy, Debug, PartialEq, Eq)]
pub enum Command {
    /// Reads a job, and does this with it.
    ForJob(JobCommand),
    /// Makes two jobs by draws from a number, replays them, and sums up what they report.
    Make(u32),
}

fn job_command_of(word: &str) -> Option<JobCommand>
    ensures { IsJobWord word.now result }
{
    match word {
        "replay" => Some(JobCommand::Replay),
        "show" => Some(JobCommand::Show),
        _ => None,
    }
}

/// The command that the words tell, if they tell one.
pub fn command_of(words: &[String]) -> Option<Command>
    ensures { Tells (map string_bytes words.now) result }
{
    match words {
        [word] => Some(Command::ForJob(job_command_of(word.as_str())?)),
        [word, number] if word.as_str() == "make" => {
            Some(Command::Make(number_of_word(number.as_str())?))
        }
        _ => None,
    }
}

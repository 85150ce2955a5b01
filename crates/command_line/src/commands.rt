//! What the program can be asked for.

use period_file::Period;
use process_player::ProcessKind;
use schedule_writer::Request;
use sheet_changes::Asked;
use threads_player::Size;

/// What an input is taken for: that of the command of this name.
#[derive(Clone, Copy, Debug, PartialEq)]
pub enum Kind {
    /// A batch to be rated.
    Rate,
    /// A schedule to be played.
    Play,
    /// Batches of which a schedule is to be written.
    Schedule,
    /// An old price sheet and a new one.
    Sheets,
}

/// What the program is asked for.
#[derive(Clone, Copy, Debug, PartialEq)]
pub enum Command {
    /// `rate --period P`: the file of one batch in that billing period.
    Rate { period: Period },
    /// `play`: the transcript of a schedule.
    Play,
    /// `check --kind KIND`: what is wrong with an input of that kind. Where none is given, an input that
    /// begins with `SCHEDULE` is to be played, and any other to be rated.
    Check(Option<Kind>),
    /// `file --period P`: the file of that billing period in a transcript.
    File { period: Period },
    /// `threads --nodes N --agents A --batches K --periods P`: the report of a group of that size,
    /// run in threads.
    Threads { size: Size },
    /// `sheets --before DAY --all`: what a new price sheet changes of an old one; files of months that
    /// end before the day, where one is given, are to stay. With `--all` each field that differs is
    /// listed too.
    Sheets { asked: Asked },
    /// `schedule --nodes N --observers M --through P`: a schedule that closes the months of batches.
    Schedule { request: Request },
    /// `node` or `agent`: a process of a group, which is begun by what the input gives first, and answers
    /// each command after it.
    Process { kind: ProcessKind },
    /// `--help`, also after a command: how the program, or that command, is called.
    Help,
    /// `--version`: which version of the program it is.
    Version,
}

//! What the words after the program's name ask for: the one place of the commands' names.
ghost use Rattle.std.specs.Prelude.{◌≡◌, ◌∷◌, [], codes, map, string_bytes};
ghost use Rattle.ml_command.specs.Commands.{IsCommandOf};

use crate::words::{read_number, view_words, window_words};
use ml_cone::View;
use ml_flight::Window;

/// What is asked of a table's labels.
#[derive(Clone, Copy)]
pub enum TableTask {
    /// A view of them.
    Show(View),
    /// Their ends and blockers.
    Slots,
    /// Their longest free gaps.
    Gaps,
    /// A view of them under these gaps.
    GapView(View),
}

/// What is asked of the labels of a map's features under a style.
#[derive(Clone, Copy)]
pub enum MapTask {
    /// A view of them.
    ViewMap(View),
    /// At which scales each of them is shown in a window.
    Zoom(Window),
}

/// Which connections are served over a map.
#[derive(Clone, Copy)]
pub enum LiveTask {
    /// One, from the input to the output.
    Pipe,
    /// So many at a port, one after another.
    Serve(u16, u64),
}

/// A command with its arguments.
#[derive(Clone, Copy)]
pub enum Command<'a> {
    /// Something of the labels of the table of this name.
    OnTable(&'a str, TableTask),
    /// The verdict on slots that are given for a table's labels: the names of table and slots.
    Check(&'a str, &'a str),
    /// Something of the labels of a map's features under a style: the names of style and map.
    OnMap(&'a str, &'a str, MapTask),
    /// Connections are served over a map under a style: the names of style and map.
    Live(&'a str, &'a str, LiveTask),
    /// What comes of a generated map that is edited: of how many groups, and of which seed.
    Gen(u32, u32),
    /// The states of the file of this name are followed.
    Follow(&'a str),
}

impl Command<'_> {
    ghost use Rattle.ml_command.specs.Commands.{tells_changes};

    /// Whether the watchers are told what the command changes.
    pub fn tells_changes(&self) -> bool
        ensures { result ≡ tells_changes self.now }
    {
        match self {
            Command::OnTable(_, _) => false,
            Command::Check(_, _) => false,
            Command::OnMap(_, _, _) => false,
            Command::Live(_, _, _) => true,
            Command::Gen(_, _) => false,
            Command::Follow(_) => true,
        }
    }
}

/// The command that the words ask for; none where they have none of the forms.
pub fn read_command(words: &[String]) -> Option<Command<'_>>
    ensures { IsCommandOf (map string_bytes words.now) result }
{
    match words {
        [name, rest @ ..] => command_of(name.as_str(), rest),
        [] => None,
    }
}

// The command of this name with the words behind it.
fn command_of<'a>(name: &str, rest: &'a [String]) -> Option<Command<'a>>
    ensures { IsCommandOf (name.now ∷ map string_bytes rest.now) result }
{
    match name {
        "show" => show_command(rest),
        "slots" => slots_command(rest),
        "check" => check_command(rest),
        "view" => view_command(rest),
        "zoom" => zoom_command(rest),
        "gaps" => gaps_command(rest),
        "gapview" => gap_view_command(rest),
        "pipe" => pipe_command(rest),
        "serve" => serve_command(rest),
        "gen" => gen_command(rest),
        "follow" => follow_command(rest),
        _ => None,
    }
}

// The command that shows a view of a table.
fn show_command<'a>(rest: &'a [String]) -> Option<Command<'a>>
    ensures { IsCommandOf (codes "show" ∷ map string_bytes rest.now) result }
{
    match rest {
        [table, words @ ..] => match view_words(words) {
            Some(view) => Some(Command::OnTable(table.as_str(), TableTask::Show(view))),
            None => None,
        },
        [] => None,
    }
}

// The command that lists the ends of a table.
fn slots_command<'a>(rest: &'a [String]) -> Option<Command<'a>>
    ensures { IsCommandOf (codes "slots" ∷ map string_bytes rest.now) result }
{
    match rest {
        [table] => Some(Command::OnTable(table.as_str(), TableTask::Slots)),
        _ => None,
    }
}

// The command that lists the longest free gaps of a table.
fn gaps_command<'a>(rest: &'a [String]) -> Option<Command<'a>>
    ensures { IsCommandOf (codes "gaps" ∷ map string_bytes rest.now) result }
{
    match rest {
        [table] => Some(Command::OnTable(table.as_str(), TableTask::Gaps)),
        _ => None,
    }
}

// The command that shows a view of a table under these gaps.
fn gap_view_command<'a>(rest: &'a [String]) -> Option<Command<'a>>
    ensures { IsCommandOf (codes "gapview" ∷ map string_bytes rest.now) result }
{
    match rest {
        [table, words @ ..] => match view_words(words) {
            Some(view) => Some(Command::OnTable(table.as_str(), TableTask::GapView(view))),
            None => None,
        },
        [] => None,
    }
}

// The command that checks slots.
fn check_command<'a>(rest: &'a [String]) -> Option<Command<'a>>
    ensures { IsCommandOf (codes "check" ∷ map string_bytes rest.now) result }
{
    match rest {
        [table, slots] => Some(Command::Check(table.as_str(), slots.as_str())),
        _ => None,
    }
}

// The command that shows a view of a map.
fn view_command<'a>(rest: &'a [String]) -> Option<Command<'a>>
    ensures { IsCommandOf (codes "view" ∷ map string_bytes rest.now) result }
{
    match rest {
        [style, map, words @ ..] => match view_words(words) {
            Some(view) => Some(Command::OnMap(
                style.as_str(),
                map.as_str(),
                MapTask::ViewMap(view),
            )),
            None => None,
        },
        _ => None,
    }
}

// The command that tells the zoom timeline of a map.
fn zoom_command<'a>(rest: &'a [String]) -> Option<Command<'a>>
    ensures { IsCommandOf (codes "zoom" ∷ map string_bytes rest.now) result }
{
    match rest {
        [style, map, words @ ..] => match window_words(words) {
            Some(window) => Some(Command::OnMap(
                style.as_str(),
                map.as_str(),
                MapTask::Zoom(window),
            )),
            None => None,
        },
        _ => None,
    }
}

// The command that serves a map to one connection.
fn pipe_command<'a>(rest: &'a [String]) -> Option<Command<'a>>
    ensures { IsCommandOf (codes "pipe" ∷ map string_bytes rest.now) result }
{
    match rest {
        [style, map] => Some(Command::Live(style.as_str(), map.as_str(), LiveTask::Pipe)),
        _ => None,
    }
}

// The command that serves a map at a port.
fn serve_command<'a>(rest: &'a [String]) -> Option<Command<'a>>
    ensures { IsCommandOf (codes "serve" ∷ map string_bytes rest.now) result }
{
    match rest {
        [style, map, port, count] => {
            serve_at(style.as_str(), map.as_str(), port.as_str(), count.as_str())
        }
        _ => None,
    }
}

// The command that serves so many connections at a port.
fn serve_at<'a>(style: &'a str, map: &'a str, port: &str, count: &str) -> Option<Command<'a>>
    ensures { IsCommandOf (codes "serve" ∷ style.now ∷ map.now ∷ port.now ∷ count.now ∷ []) result }
{
    match (read_number(port, 1, 65535), read_number(count, 1, 1000000)) {
        (Some(port), Some(count)) => {
            let task = LiveTask::Serve(port as u16, u64::from(count));
            Some(Command::Live(style, map, task))
        }
        _ => None,
    }
}

// The command that generates a map.
fn gen_command<'a>(rest: &'a [String]) -> Option<Command<'a>>
    ensures { IsCommandOf (codes "gen" ∷ map string_bytes rest.now) result }
{
    match rest {
        [groups, seed] => {
            match (
                read_number(groups.as_str(), 1, 6000),
                read_number(seed.as_str(), 0, 4294967295),
            ) {
                (Some(groups), Some(seed)) => Some(Command::Gen(groups, seed)),
                _ => None,
            }
        }
        _ => None,
    }
}

// The command that follows states.
fn follow_command<'a>(rest: &'a [String]) -> Option<Command<'a>>
    ensures { IsCommandOf (codes "follow" ∷ map string_bytes rest.now) result }
{
    match rest {
        [states] => Some(Command::Follow(states.as_str())),
        _ => None,
    }
}

//! Laws of what commands answer: one answer each. Each function takes nothing and does nothing but call the laws
//! below that it stands on: its contract is the law, for all values.
ghost use Rattle.std.specs.Prelude.{◌≡◌, List, Option, Some, [], ℕ};
ghost use Rattle.ml_command.specs.Answers.{IsMapAnswer, IsTableAnswer};
ghost use Rattle.ml_command.specs.Commands.{Ask};
ghost use Rattle.ml_command.specs.Following.{AllAdopted, Following, HasStates};
ghost use Rattle.ml_command.specs.Loading.{IsFirstState};
ghost use Rattle.ml_command.specs.Once.{plain};
ghost use Rattle.ml_command.specs.declared.command.Command.{Command};
ghost use Rattle.ml_command.specs.declared.command.MapTask.{MapTask};
ghost use Rattle.ml_command.specs.declared.command.TableTask.{TableTask};
ghost use Rattle.ml_editor.specs.State.{State};
ghost use Rattle.ml_follow.specs.declared.state.State as followed;
ghost use Rattle.ml_io.specs.Files.{FileSet};

use ml_conflict::laws::one_choice;
use ml_flight::laws::{one_peak, one_timeline};
use ml_follow::laws::one_reading;
use ml_gaps::laws::one_answer;
use ml_geojson::laws::one_map;
use ml_label::laws::one_list;
use ml_pass::laws::one_table;
use ml_style::laws::one_style;

/// Words ask for one command at most, wherever its names stand in memory.
pub fn one_command()
    ensures { (words : List (List ℕ)) (one other : Command) →
        Ask words one → Ask words other → plain one ≡ plain other }
{}

/// Of a table of told files there is one text for each task.
pub fn one_table_answer()
    ensures { (files : FileSet) (table : List ℕ) (task : TableTask) (one other : List ℕ) →
        IsTableAnswer (Some files) table task one →
        IsTableAnswer (Some files) table task other → one ≡ other }
{
    one_table();
    one_choice();
    one_answer();
}

/// Of a style and a map of told files there is one text for each task.
pub fn one_map_answer()
    ensures { (files : FileSet) (style map : List ℕ) (task : MapTask) (one other : List ℕ) →
        IsMapAnswer (Some files) style map task one →
        IsMapAnswer (Some files) style map task other → one ≡ other }
{
    one_style();
    one_map();
    one_list();
    one_choice();
    one_timeline();
    one_peak();
}

/// A style and a map of told files have one first state.
pub fn one_first_state()
    ensures { (files : FileSet) (style map : List ℕ) (one other : State) →
        IsFirstState (Some files) style map one →
        IsFirstState (Some files) style map other → one ≡ other }
{
    one_style();
    one_map();
}

/// A told file holds one list of states; and where all of them are adopted, they are answered alike, so that the
/// watchers are told the same changes, and the same state is held in the end.
pub fn one_following()
    ensures states { (files : FileSet) (name : List ℕ) (states others : List followed.State) →
        HasStates (Some files) name states → HasStates (Some files) name others → states ≡ others }
    ensures answers { (states : List followed.State) (one other : Following states) →
        one.rest ≡ [] → other.rest ≡ [] →
        AllAdopted one.answers → AllAdopted other.answers → one.answers ≡ other.answers }
    ensures held { (states : List followed.State) (one other : Following states) →
        one.rest ≡ [] → other.rest ≡ [] →
        AllAdopted one.answers → AllAdopted other.answers → one.held ≡ other.held }
{
    one_reading();
}

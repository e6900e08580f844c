//! Laws of what a run comes to. Each function takes nothing and does nothing but call the laws below
//! that it stands on: its contract is the law, for all values.
ghost use Rattle.std.specs.Prelude.{◌≡◌, List, Option, Some, ℕ};
ghost use Rattle.ml_command.specs.Loading.{IsFirstState};
ghost use Rattle.ml_command.specs.Commands.{Ask};
ghost use Rattle.ml_command.specs.declared.command.Command.{Command};
ghost use Rattle.ml_editor.specs.State.{State, IsState};
ghost use Rattle.ml_io.specs.Files.{FileSet};
ghost use Rattle.maplabel.specs.Generating.{IsTotalsOf};
ghost use Rattle.maplabel.specs.Once.{DoAlike, FindAlike};
ghost use Rattle.maplabel.specs.Ready.{AreReady, EndsWell, IsCalm};
ghost use Rattle.maplabel.specs.Run.{Call, IsRun};
ghost use Rattle.maplabel.specs.declared.status.Status.{Status};
ghost use Rattle.maplabel.specs.declared.status.Status.TheVariants.{Done};

use ml_cert::laws::one_list_of_slots;
use ml_command::laws::{
    one_command, one_first_state, one_following, one_map_answer, one_table_answer,
};
use ml_conflict::laws::l0;
use ml_editor::laws::one_edit;
use ml_follow::laws::one_reading;
use ml_geojson::laws::{ids_differ, map_or_fault, one_map, same_is_one};
use ml_http::laws::one_account;
use ml_label::laws::one_list;
use ml_pass::laws::one_table;
use ml_repair::laws::{one_changes, one_cost};
use ml_serve::laws::one_session;
use ml_style::laws::{one_style, style_or_fault};

/// Where the words have one of the forms, the files that they name are told, within the limit and
/// accepted, and no count of faults rose, a run is done; `check` may find that the slots are not best,
/// `follow` may adopt not all states, and each command may want memory.
pub fn completes<S, D, I, O, W>()
    ensures { (r : Call S D I O W) (files : FileSet) (words : List (List ℕ)) (status : Status) →
        r.files.told ≡ Some files → AreReady files words → IsCalm r →
        IsRun r words status → EndsWell words status }
{
    style_or_fault();
    map_or_fault();
    one_map();
    one_table();
    one_list_of_slots();
    one_reading();
}

/// The first state of a style and a map that were accepted can be reached. So what holds of each state that
/// can be reached holds of all that a run serves.
pub fn first_is_reached()
    ensures { (told : Option FileSet) (style map : List ℕ) (first : State) →
        IsFirstState told style map first → IsState first }
{
    ids_differ();
}

/// A generated map that is edited comes to one line of totals.
pub fn one_totals()
    ensures { (groups seed : ℕ) (one other : List ℕ) →
        IsTotalsOf groups seed one → IsTotalsOf groups seed other → one ≡ other }
{
    one_style();
    one_map();
    same_is_one();
    one_list();
    l0();
    one_changes();
    one_cost();
    one_edit();
}

/// Two runs of the same words that find the same told files, and are both done, print the same bytes; on `pipe`
/// where the input brings the same bytes, on `serve` where the door brings the same links, all of them told.
///
/// They tell their watchers the same changes, or nobody anything. On `serve` both serve as many connections; where
/// each of them ended by neither a fault nor a lack of memory, they wrote the same to each.
pub fn one_run<S, D, I, O, W>()
    ensures printed { (one other : Call S D I O W) (words : List (List ℕ)) →
        FindAlike one other words →
        IsRun one words Done → IsRun other words Done →
        one.out.written ≡ other.out.written → one.out.written_after ≡ other.out.written_after }
    ensures alike { (one other : Call S D I O W) (words : List (List ℕ)) →
        FindAlike one other words →
        IsRun one words Done → IsRun other words Done →
        (command : Command) × Ask words command × DoAlike one other command }
{
    one_command();
    one_table_answer();
    one_map_answer();
    one_totals();
    one_first_state();
    first_is_reached();
    one_following();
    one_account::<W>();
    one_session::<W, I, O>();
}

//! A map that is edited.
ghost use Rattle.std.specs.Prelude.{◌≡◌, ◌+◌, ◌<◌, ◌≤◌, length, All, IfOk, IfErr, OnOk, IfSome, MatchOption, ℕ, Contains};
ghost use Rattle.ml_ratio.specs.Limits.{most_labels};
ghost use Rattle.ml_ratio.specs.Refusal.{RefusesExactly};
ghost use Rattle.ml_geojson.specs.Map.{HaveDifferentIds, IsMap};
ghost use Rattle.ml_geojson.specs.Text.{collection_text};
ghost use Rattle.ml_watch.specs.Hearing.{AllHear};
ghost use Rattle.ml_store.specs.Rows.{labels_in, numbers_in, slots_in, HasId, IsLive, IsNumberOf};
ghost use Rattle.ml_editor.specs.Standing.{IsStanding};
ghost use Rattle.ml_store.specs.declared.row.Row.{Row};
ghost use Rattle.ml_repair.specs.Shown.{AreShownNumbers, AreApart, AreNear};
ghost use Rattle.ml_editor.specs.State.{first_state, last_rev, step};
ghost use Rattle.ml_editor.specs.Editing.{IsEditing, IsReady, HasRoomFor};

use crate::fault::LoadRefused;
use crate::features::Features;
use crate::standing::Standing;
use ml_cone::{Label, Slot, View};
use ml_geojson::write_collection;
use ml_label::{labels_of, reason_of};
use ml_ratio::{Feature, MOST_LABELS, Seq, Steps, Text};
use ml_repair::Engine;
use ml_style::Style;
use std::alloc::{AllocError, Global};
use std::marker::Model;
use std::sync::ledger::Ledger;

/// A map that is edited: a style, at most 32,768 features in order, and their labels with the longest
/// active ranges in priority order. The revision counts the edits that were carried out.
#[derive(Drop)]
pub struct Editor {
    pub(crate) style: Style,
    pub(crate) features: Features,
    pub(crate) engine: Engine,
    pub(crate) revision: u64,
}

impl Model for Editor {
    ghost use Rattle.std.specs.Coded.{codes};
    ghost use Rattle.ml_ratio.specs.contracts.feature.Feature as a_feature;
    ghost use Rattle.ml_style.specs.contracts.style.Style as a_style;
    ghost use Rattle.ml_editor.specs.Editing.{Editing, IsEditing};

    ghost Value = { Editing };

    ghost coded = { Prim.hlevel (codes, a_feature.the_row.coded, a_style.the_row.coded) };

    ghost view = { λ e. record { state = record { style = e.style; features = e.features.list; rev = e.revision }; engine = e.engine; room = e.features.room } };

    ghost invariant = { λ e. IsEditing (record { state = record { style = e.style; features = e.features.list; rev = e.revision }; engine = e.engine; room = e.features.room }) };
}

impl Editor {
    /// The map of these features, in this order, under this style, at revision 0. No two features may
    /// have the same id.
    ///
    /// # Errors
    /// [`LoadRefused::Full`] exactly where there are more than 32,768 features; out of memory.
    pub fn load(alloc: Global, style: Style, features: Seq<Feature>) -> Result<Editor, LoadRefused>
        requires differ { HaveDifferentIds features }
        ensures ok { IfOk result (λ editor. editor.state ≡ first_state style features) }
        ensures holds { IfOk result IsEditing }
        ensures full { RefusesExactly result LoadRefused.Full LoadRefused.Memory
            (most_labels < length features) }
    {
        Editor::load_at(alloc, style, features, 0)
    }

    /// The same at another revision, at most 2^53, so that the count of an earlier run goes on.
    ///
    /// # Errors
    /// As [`Editor::load`].
    pub fn load_at(
        alloc: Global,
        style: Style,
        features: Seq<Feature>,
        revision: u64,
    ) -> Result<Editor, LoadRefused>
        requires differ { HaveDifferentIds features }
        requires low { revision ≤ last_rev }
        ensures ok { IfOk result (λ editor.
            editor.state ≡ record { style = style; features = features; rev = revision }) }
        ensures holds { IfOk result IsEditing }
        ensures full { RefusesExactly result LoadRefused.Full LoadRefused.Memory
            (most_labels < length features) }
    {
        if features.len() > MOST_LABELS {
            return Err(LoadRefused::Full);
        }
        let labels = labels_of(alloc, &style, features.as_slice())?;
        let engine = Engine::build(alloc, Seq::of_vec(labels))?;
        let features = Features::of(alloc, features)?;
        Ok(Editor {
            style,
            features,
            engine,
            revision,
        })
    }

    /// The revision: how many edits were carried out.
    pub fn rev(&self) -> u64
        ensures rev { result ≡ self.now.state.rev }
        ensures holds { IsEditing self.now }
    {
        self.revision
    }

    /// How many features there are.
    pub fn features(&self) -> usize
        ensures { result ≡ length self.now.state.features }
    {
        self.features.len()
    }

    /// How many labels there are.
    pub fn labels(&self) -> usize
        ensures { result ≡ length self.now.engine.rows }
    {
        self.engine.len()
    }

    /// The numbers of the labels that the view shows, in priority order. It spends a step for each label
    /// near the view.
    ///
    /// # Errors
    /// Out of memory.
    pub fn shown<L: Ledger>(
        &self,
        alloc: Global,
        view: &View,
        looks: &mut Steps<L>,
    ) -> Result<Seq<u32>, AllocError>
        ensures shown { IfOk result (AreShownNumbers self.now.engine.rows view.now) }
        ensures live { IfOk result (λ numbers. All (IsLive self.now.engine.rows) numbers) }
        ensures apart { IfOk result (AreApart self.now.engine.rows view.now) }
        ensures looks { IfOk result (λ _.
            (n : ℕ) × AreNear (labels_in self.now.engine.rows)
            (slots_in self.now.engine.rows) view.now n × (looks.new ≡ looks.old + n)) }
    {
        self.engine.shown(alloc, view, looks)
    }

    /// The label with this number, which is live.
    pub fn label_at(&self, number: u32) -> &Label
        requires { IsLive self.now.engine.rows number }
        ensures { (r : Row) → Contains self.now.engine.rows r →
            r.number ≡ number → result.now ≡ r.label }
    {
        self.engine.label_at(number)
    }

    /// The slot of the label with this number, which is live.
    pub fn slot_at(&self, number: u32) -> Slot
        requires { IsLive self.now.engine.rows number }
        ensures slot { (r : Row) → Contains self.now.engine.rows r →
            r.number ≡ number → result ≡ r.slot }
        ensures blocker { IfSome result.blocker (IsLive self.now.engine.rows) }
        ensures holds { IsEditing self.now }
    {
        self.engine.slot_at(number)
    }

    /// The canonical text of the features, as a collection of them in their order.
    ///
    /// # Errors
    /// Out of memory.
    pub fn export(&self, alloc: Global) -> Result<Seq<u8>, AllocError>
        ensures ok { IfOk result (λ text. text ≡ collection_text self.now.state.features) }
        ensures back { IfOk result (λ text. IsMap text self.now.state.features) }
    {
        let features = self.features.copy(alloc)?;
        write_collection(alloc, &features)
    }
    /// How the feature with this id stands: with the label that has this number, or without one, for
    /// this reason. None exactly where no feature has the id.
    pub fn standing(&self, id: &Text) -> Option<Standing>
        ensures { IsStanding self.now id.now result }
    {
        let feature = self.features.get(id)?;
        match self.engine.number_of(id) {
            Some(number) => Some(Standing::Labelled(number)),
            None => Some(Standing::Unlabelled(reason_of(&self.style, feature))),
        }
    }

    /// The number of the label with this id; none exactly where no label has it.
    pub fn number_of(&self, id: &Text) -> Option<u32>
        ensures number { MatchOption result (¬ (HasId (labels_in self.now.engine.rows) id.now))
            (IsNumberOf self.now.engine.rows id.now) }
        ensures holds { IsEditing self.now }
    {
        self.engine.number_of(id)
    }

    /// The numbers of all labels in priority order.
    ///
    /// # Errors
    /// Out of memory.
    pub fn in_order(&self, alloc: Global) -> Result<Seq<u32>, AllocError>
        ensures numbers { IfOk result (λ numbers. numbers ≡ numbers_in self.now.engine.rows) }
        ensures live { IfOk result (λ numbers. All (IsLive self.now.engine.rows) numbers) }
    {
        self.engine.in_order(alloc)
    }
}

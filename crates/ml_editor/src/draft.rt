//! What is drawn up for an edit.
ghost use Rattle.std.specs.Prelude.{◌≡◌, ◌<◌, length, IfOk, IfSome, IsSome};
ghost use Rattle.ml_ratio.specs.Limits.{most_labels};
ghost use Rattle.ml_store.specs.Rows.{labels_in, HasId};
ghost use Rattle.ml_repair.specs.Settled.{IsSettled};
ghost use Rattle.ml_editor.specs.State.{IsAllowed};
ghost use Rattle.ml_editor.specs.Editing.{IsDrawn, IsDrawnFor, IsEditDraft, IsEditing, IsLabelFor, IsStyleDraft};

use crate::changes::changes_between;
use crate::edit::Edit;
use crate::editor::Editor;
use crate::work::Work;
use ml_cone::Label;
use ml_label::{label_of, labels_of};
use ml_ratio::{Feature, Seq, Steps, Text};
use ml_repair::{Engine, Plan};
use ml_style::Style;
use std::alloc::{AllocError, Global};
use std::sync::ledger::Ledger;

/// What is drawn up for an edit: the id of its feature once more, the work on the labels, and the label
/// that the feature has after it, if it has one.
#[derive(Drop)]
pub struct Draft {
    pub(crate) key: Text,
    pub(crate) work: Work,
    pub(crate) label: Option<Label>,
}

impl Editor {
    // What is drawn up for an edit that the features allow. It spends a step for each label that is
    // evaluated.
    pub(crate) fn draft<L: Ledger>(
        &self,
        alloc: Global,
        edit: &Edit,
        steps: &mut Steps<L>,
    ) -> Result<Draft, AllocError>
        requires { IsAllowed self.now.state.features edit.now }
        ensures draft { IfOk result
            (IsEditDraft self.now.state self.now.engine.rows edit.now steps.old steps.new) }
        ensures holds { IsEditing self.now }
    {
        match edit {
            Edit::Add(feature) => {
                let label = self.label_for(alloc, feature)?;
                draft_for(&self.engine, alloc, &feature.id, label, steps)
            }
            Edit::Replace(feature) => {
                let label = self.label_for(alloc, feature)?;
                draft_for(&self.engine, alloc, &feature.id, label, steps)
            }
            Edit::Remove(id) => draft_for(&self.engine, alloc, id, None, steps),
            Edit::Restyle(style) => self.draft_style(alloc, style),
        }
    }

    // The label of a feature under the present style, or none where it has none.
    fn label_for(&self, alloc: Global, feature: &Feature) -> Result<Option<Label>, AllocError>
        ensures label { IfOk result (IsLabelFor self.now.state.style feature.now) }
        ensures holds { IsEditing self.now }
    {
        match label_of(alloc, &self.style, feature)? {
            Ok(label) => Ok(Some(label)),
            Err(_) => Ok(None),
        }
    }

    // What is drawn up for a new style.
    fn draft_style(&self, alloc: Global, style: &Style) -> Result<Draft, AllocError>
        ensures draft { IfOk result
            (IsStyleDraft style.now self.now.state.features self.now.engine.rows) }
        ensures holds { IsEditing self.now }
    {
        let features = self.features.copy(alloc)?;
        let labels = labels_of(alloc, style, features.as_slice())?;
        let engine = Engine::build(alloc, Seq::of_vec(labels))?;
        let changes = changes_between(alloc, features.as_slice(), &self.engine, &engine)?;
        Ok(Draft {
            key: Text::of_string(String::new(alloc)),
            work: Work::Rebuilds(engine, changes),
            label: None,
        })
    }
}

// The label again, if there is one.
fn label_again(label: &Option<Label>) -> Result<Option<Label>, AllocError>
    ensures { IfOk result (λ copy. copy ≡ label.now) }
{
    match label {
        Some(label) => Ok(Some(label.copy()?)),
        None => Ok(None),
    }
}

// What is drawn up with a plan.
fn drawn(
    key: Text,
    plan: Result<Plan, AllocError>,
    label: Option<Label>,
) -> Result<Draft, AllocError>
    ensures { IsDrawn key plan label result }
{
    match plan {
        Ok(plan) => Ok(Draft {
            key,
            work: Work::Plans(plan),
            label,
        }),
        Err(error) => Err(error),
    }
}

// What is drawn up where the label with an id goes, if there is one, and this one comes, if one does.
fn draft_for<L: Ledger>(
    engine: &Engine,
    alloc: Global,
    id: &Text,
    come: Option<Label>,
    steps: &mut Steps<L>,
) -> Result<Draft, AllocError>
    requires id { IfSome come (λ label. label.order.id ≡ id.now) }
    requires few { IsSome come → ¬ (HasId (labels_in engine.now.rows) id.now) →
        length engine.now.rows < most_labels }
    requires settled { IsSettled engine.now.rows }
    ensures { IfOk result
        (λ draft. IsDrawnFor draft engine.now.rows id.now come steps.old steps.new) }
{
    let key = id.copy()?;
    let label = label_again(&come)?;
    match come {
        Some(coming) => match engine.number_of(id) {
            Some(_) => drawn(key, engine.plan_replace(alloc, coming, steps), label),
            None => drawn(key, engine.plan_add(alloc, coming, steps), label),
        },
        None => match engine.number_of(id) {
            Some(_) => drawn(key, engine.plan_remove(alloc, id, steps), label),
            None => Ok(Draft {
                key,
                work: Work::Nothing(Seq::new(alloc)),
                label,
            }),
        },
    }
}

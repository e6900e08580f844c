//! The engine.
ghost use Rattle.std.specs.Prelude.{ℕ, ◌≡◌, ◌≢◌, ◌+◌, ◌<◌, ◌≤◌, ◌↔◌, IsTrue, Some, None, List, length, All, Contains, OnOk, IfOk, IfSome, MatchOption};
ghost use Rattle.std.specs.List.{AllPairs};
ghost use Rattle.ml_ratio.specs.Limits.{most_labels};
ghost use Rattle.ml_cone.specs.declared.label.Label.{Label};
ghost use Rattle.ml_store.specs.Rows.{numbers_in, labels_in, slots_in, IsLive, HasId, IsNumberOf};
ghost use Rattle.ml_store.specs.declared.row.Row.{Row};
ghost use Rattle.ml_repair.specs.Settled.{IsSettled};
ghost use Rattle.ml_repair.specs.Plan.{IsPlanOf, IsPlanFor, planned_rows, room_of, HasRoom, KeepsRoom};
ghost use Rattle.ml_repair.specs.Shown.{AreShownNumbers, AreApart, AreNear};

use crate::build::build_store;
use crate::carry::carry_out;
use crate::plan::Plan;
use crate::planning::{plan_in, plan_instead, plan_out};
use crate::read::{all_numbers, row_at};
use crate::room::Room;
use crate::shown::shown_numbers;
use ml_cone::{Label, Slot, View};
use ml_ratio::{Seq, Steps, Text};
use ml_store::Store;
use std::alloc::{AllocError, Global};
use std::marker::Model;
use std::sync::ledger::Ledger;

/// The live labels, at most 32,768, with the longest active ranges in priority order.
///
/// Each label has a number below 32,768 while it lives, by which others name it. A number is used again
/// only after its label went. Contracts see the labels in priority order, each with its number and its
/// slot, whose blocker is given by number, and how much may come in without memory.
#[derive(Drop)]
pub struct Engine {
    store: Store,
}

impl Model for Engine {
    ghost use Rattle.ml_store.specs.Rows.{Stored};
    ghost use Rattle.ml_repair.specs.Settled.{IsSettled};

    ghost Value = { Stored };

    ghost view = { λ e. e.store };

    ghost invariant = { λ e. IsSettled e.store.rows };
}

impl Engine {
    /// The engine of these labels, at most 32,768, which may come in any order. No two of them may have
    /// the same id.
    ///
    /// # Errors
    /// Out of memory.
    pub fn build(alloc: Global, labels: Seq<Label>) -> Result<Engine, AllocError>
        requires differ { AllPairs (λ one other. one.order.id ≢ other.order.id) labels }
        requires few { length labels ≤ most_labels }
        ensures labels { IfOk result (λ engine.
            (label : Label) → Contains (labels_in engine.rows) label ↔ Contains labels label) }
        ensures settled { IfOk result (λ engine. IsSettled engine.rows) }
    {
        let store = build_store(alloc, labels)?;
        Ok(Engine { store })
    }

    /// How many labels there are.
    pub fn len(&self) -> usize
        ensures count { result ≡ length self.now.rows }
        ensures settled { IsSettled self.now.rows }
    {
        self.store.len()
    }

    /// Whether there are no labels.
    pub fn is_empty(&self) -> bool
        ensures { IsTrue result ↔ (length self.now.rows ≡ 0) }
    {
        self.store.len() == 0
    }

    /// The number of the label with this id; none where no label has it.
    pub fn number_of(&self, id: &Text) -> Option<u32>
        ensures { MatchOption result (¬ (HasId (labels_in self.now.rows) id.now))
            (IsNumberOf self.now.rows id.now) }
    {
        self.store.number_of(id)
    }

    /// The label with this number, which is live.
    pub fn label_at(&self, number: u32) -> &Label
        requires { IsLive self.now.rows number }
        ensures { (r : Row) → Contains self.now.rows r → r.number ≡ number → result.now ≡ r.label }
    {
        &row_at(&self.store, number).label
    }

    /// The slot of the label with this number, which is live.
    pub fn slot_at(&self, number: u32) -> Slot
        requires { IsLive self.now.rows number }
        ensures slot { (r : Row) → Contains self.now.rows r → r.number ≡ number → result ≡ r.slot }
        ensures blocker { IfSome result.blocker (IsLive self.now.rows) }
    {
        row_at(&self.store, number).slot
    }

    /// The numbers of all labels in priority order.
    ///
    /// # Errors
    /// Out of memory.
    pub fn in_order(&self, alloc: Global) -> Result<Seq<u32>, AllocError>
        ensures numbers { IfOk result (λ numbers. numbers ≡ numbers_in self.now.rows) }
        ensures live { IfOk result (λ numbers. All (IsLive self.now.rows) numbers) }
    {
        all_numbers(alloc, &self.store)
    }

    /// What the coming of a label with a new id will make of the labels. It spends a step for each label
    /// that is evaluated: just those that the edit touches.
    ///
    /// # Errors
    /// Out of memory.
    pub fn plan_add<L: Ledger>(
        &self,
        alloc: Global,
        label: Label,
        steps: &mut Steps<L>,
    ) -> Result<Plan, AllocError>
        requires new_id { ¬ (HasId (labels_in self.now.rows) label.order.id) }
        requires few { length self.now.rows < most_labels }
        ensures { IfOk result
            (λ plan. IsPlanFor plan self.now.rows label.order.id (Some label) steps.old steps.new) }
    {
        plan_in(alloc, &self.store, label, steps)
    }

    /// What the going of the label with this id, which is live, will make of the labels. It spends a step
    /// for each label that is evaluated: just those that the edit touches.
    ///
    /// # Errors
    /// Out of memory.
    pub fn plan_remove<L: Ledger>(
        &self,
        alloc: Global,
        id: &Text,
        steps: &mut Steps<L>,
    ) -> Result<Plan, AllocError>
        requires live { HasId (labels_in self.now.rows) id.now }
        ensures { IfOk result
            (λ plan. IsPlanFor plan self.now.rows id.now None steps.old steps.new) }
    {
        plan_out(alloc, &self.store, id, steps)
    }

    /// What the coming of a label in place of that with its id, which is live, will make of the labels.
    /// It spends a step for each label that is evaluated: just those that the going of the one and then
    /// the coming of the other touches.
    ///
    /// # Errors
    /// Out of memory.
    pub fn plan_replace<L: Ledger>(
        &self,
        alloc: Global,
        label: Label,
        steps: &mut Steps<L>,
    ) -> Result<Plan, AllocError>
        requires live { HasId (labels_in self.now.rows) label.order.id }
        ensures { IfOk result
            (λ plan. IsPlanFor plan self.now.rows label.order.id (Some label) steps.old steps.new) }
    {
        plan_instead(alloc, &self.store, label, steps)
    }

    /// How much may come in without memory.
    pub fn room(&self) -> Room
        ensures labels { result.labels ≡ self.now.labels }
        ensures cells { result.cells ≡ self.now.cells }
        ensures blocks { result.blocks ≡ self.now.blocks }
    {
        Room {
            labels: self.store.spare_labels(),
            cells: self.store.spare_cells(),
            blocks: self.store.spare_blocks(),
        }
    }

    /// Takes the memory that the plan needs, which is of the present labels.
    ///
    /// # Errors
    /// Out of memory, which leaves the labels; the room may have grown.
    pub fn reserve(&mut self, plan: &Plan) -> Result<(), AllocError>
        requires { IsPlanOf plan.now self.old.rows }
        ensures ok { OnOk result (HasRoom (room_of plan.now) self.new) }
        ensures same { self.new.rows ≡ self.old.rows }
        ensures room { KeepsRoom self.old self.new }
    {
        let room = plan.room();
        self.store.reserve(room.labels, room.cells, room.blocks)
    }

    /// Carries out a plan of the present labels, for which there is room. It takes no memory and cannot
    /// fail.
    pub fn apply(&mut self, plan: Plan)
        requires of_state { IsPlanOf plan self.old.rows }
        requires reserved { HasRoom (room_of plan) self.old }
        ensures rows { self.new.rows ≡ planned_rows plan self.old.rows }
        ensures settled { IsSettled self.new.rows }
    {
        carry_out(&mut self.store, plan);
    }

    /// The numbers of the labels that the view shows, in priority order. It spends a step for each label
    /// near the view.
    ///
    /// # Errors
    /// Out of memory.
    pub fn shown<L: Ledger>(
        &self,
        alloc: Global,
        view: &View,
        looks: &mut Steps<L>,
    ) -> Result<Seq<u32>, AllocError>
        ensures shown { IfOk result (AreShownNumbers self.now.rows view.now) }
        ensures live { IfOk result (λ numbers. All (IsLive self.now.rows) numbers) }
        ensures apart { IfOk result (AreApart self.now.rows view.now) }
        ensures looks { IfOk result (λ _. (n : ℕ) × AreNear (labels_in self.now.rows)
            (slots_in self.now.rows) view.now n × (looks.new ≡ looks.old + n)) }
    {
        shown_numbers(alloc, &self.store, view, looks)
    }
}

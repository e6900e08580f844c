//! The JSON text of a view.
ghost use Rattle.std.specs.Prelude.{◌≡◌, ◌++◌, List, IfOk, OnOk, OnErr};
ghost use Rattle.serde_json.specs.Written.{comma_if};
ghost use Rattle.ml_ratio.specs.declared.ratio.Ratio.{Ratio};
ghost use Rattle.ml_answer.specs.View.{Shown, shown_text, view_text, no_label, with_label, with_labels, view_end};

use crate::push::{push_comma, push_ratio};
use crate::shown::push_label;
use ml_cone::Label;
use ml_ratio::{Ratio, Seq};
use std::alloc::{AllocError, Global};
use std::marker::Model;

// The bytes for which room is taken at first, enough for some eight labels.
const ROOM: usize = 1000;

// The bytes that most labels take.
const LABEL_ROOM: usize = 200;

/// The text of a view, fed with the labels that it shows.
///
/// The text grows with each label, so the labels themselves are not kept.
#[derive(Drop)]
pub struct JsonView {
    scale: Ratio,
    text: Vec<u8>,
    // whether a label was added
    later: bool,
}

impl Model for JsonView {
    ghost use Rattle.ml_answer.specs.View.{JsonViewState};

    ghost Value = { JsonViewState };

    ghost view = { λ v. record { scale = v.scale; text = v.text.items; later = v.later } };
}

impl JsonView {
    /// A view at this scale, in world units a pixel, that shows no label yet.
    ///
    /// # Errors
    /// Out of memory.
    pub fn new(alloc: Global, scale: Ratio) -> Result<JsonView, AllocError>
        ensures { IfOk result (λ view. view ≡ no_label scale) }
    {
        let mut text = Vec::with_capacity(alloc, ROOM)?;
        text.extend_from_slice(b"{\"labels\":[")?;
        Ok(JsonView {
            scale,
            text,
            later: false,
        })
    }

    /// Adds a label behind those that were added before, with the scale from which on it is not shown
    /// any more.
    ///
    /// # Errors
    /// Out of memory, which leaves the view as it was.
    pub fn add(&mut self, label: &Label, until: Ratio) -> Result<(), AllocError>
        ensures ok { OnOk result (self.new ≡ with_label self.old label.now until) }
        ensures err { OnErr result (self.new ≡ self.old) }
    {
        let mut text = Vec::with_capacity(*self.text.allocator(), LABEL_ROOM)?;
        push_listed(&mut text, self.later, label, until)?;
        self.text.extend_from_slice(&text)?;
        self.later = true;
        Ok(())
    }

    // The same without a text of the label's own. Where it fails, some of the label may stand there.
    pub(crate) fn put(&mut self, label: &Label, until: Ratio) -> Result<(), AllocError>
        ensures { OnOk result (self.new ≡ with_label self.old label.now until) }
    {
        push_listed(&mut self.text, self.later, label, until)?;
        self.later = true;
        Ok(())
    }

    /// The text of the view, with no end of line, as
    /// `{"labels":[{"at":[0,0],"boxes":[[-10,-5,10,5]],"id":"A","text":"A","until":"20/1"}],"scale":"19/1"}`.
    ///
    /// # Errors
    /// Out of memory.
    pub fn finish(self) -> Result<Seq<u8>, AllocError>
        ensures ok { IfOk result (λ text. text ≡ self.text ++ view_end self.scale) }
        ensures whole { IfOk result (λ text. (scale : Ratio) (labels : List Shown) →
            self ≡ with_labels (no_label scale) labels → text ≡ view_text scale labels) }
    {
        let mut text = self.text;
        push_end(&mut text, self.scale)?;
        Ok(Seq::of_vec(text))
    }
}

// Adds a label, behind a comma where others stand before it.
fn push_listed(
    all: &mut Vec<u8>,
    later: bool,
    label: &Label,
    until: Ratio,
) -> Result<(), AllocError>
    ensures { OnOk result
        (all.new.items ≡ all.old.items ++ (comma_if later ++ shown_text label.now until)) }
{
    push_comma(all, later)?;
    push_label(all, label, until)
}

// Adds what stands behind the labels: the end of their list, and the scale.
fn push_end(text: &mut Vec<u8>, scale: Ratio) -> Result<(), AllocError>
    ensures { OnOk result (text.new.items ≡ text.old.items ++ view_end scale) }
{
    text.extend_from_slice(b"],\"scale\":")?;
    push_ratio(text, scale)?;
    text.extend_from_slice(b"}")
}

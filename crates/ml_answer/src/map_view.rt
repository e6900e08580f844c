//! The views of a map.
ghost use Rattle.std.specs.Prelude.{◌≡◌, ◌+◌, ◌++◌, ◌<◌, Contains, All, IfOk, OnOk};
ghost use Rattle.ml_store.specs.Rows.{IsLive};
ghost use Rattle.ml_store.specs.declared.row.Row.{Row};
ghost use Rattle.ml_repair.specs.Shown.{AreShownNumbers};
ghost use Rattle.ml_editor.specs.Editing.{IsEditing};
ghost use Rattle.ml_answer.specs.MapView.{IsViewText, json_body, svg_body};
ghost use Rattle.ml_answer.specs.Svg.{label_lines};
ghost use Rattle.ml_answer.specs.View.{with_label};

use crate::svg::SvgView;
use crate::view::JsonView;
use ml_cone::View;
use ml_editor::Editor;
use ml_ratio::{Seq, Steps};
use std::alloc::{AllocError, Global};
use std::marker::Brand;
use std::sync::ledger::{Blank, Ledger};

// The numbers of the labels that the view shows, found over a counter of looks.
fn shown_counted<L: Ledger>(
    blank: Blank,
    alloc: Global,
    editor: &Editor,
    view: &View,
) -> Result<Seq<u32>, AllocError>
    requires name { blank.name ≡ L.name }
    requires parts { blank.parts ≡ L.parts }
    requires some { 0 < blank.parts }
    ensures shown { IfOk result (AreShownNumbers editor.now.engine.rows view.now) }
    ensures live { IfOk result (λ numbers. All (IsLive editor.now.engine.rows) numbers) }
{
    let mut looks: Steps<L> = Steps::new(blank);
    editor.shown(alloc, view, &mut looks)
}

// The numbers of the labels that the view shows, in priority order.
fn shown(alloc: Global, editor: &Editor, view: &View) -> Result<Seq<u32>, AllocError>
    ensures shown { IfOk result (AreShownNumbers editor.now.engine.rows view.now) }
    ensures live { IfOk result (λ numbers. All (IsLive editor.now.engine.rows) numbers) }
    ensures holds { IsEditing editor.now }
{
    let _rev = editor.rev();
    shown_counted::<Brand>(Blank::new(1), alloc, editor, view)
}

/// The text of a view of the map as JSON.
///
/// # Errors
/// Out of memory.
pub fn view_json(alloc: Global, editor: &Editor, view: &View) -> Result<Seq<u8>, AllocError>
    ensures { IfOk result (λ text. IsViewText json_body editor.now.state view.now text) }
{
    let numbers = shown(alloc, editor, view)?;
    let mut json = JsonView::new(alloc, view.scale)?;
    for number in numbers.as_slice() {
        add_json(&mut json, editor, *number)?;
    }
    json.finish()
}

// Adds the label with this number to a view.
fn add_json(json: &mut JsonView, editor: &Editor, number: u32) -> Result<(), AllocError>
    requires { IsLive editor.now.engine.rows number }
    ensures { OnOk result ((row : Row) × Contains editor.now.engine.rows row × (row.number ≡ number)
        × (json.new ≡ with_label json.old row.label row.slot.until)) }
{
    json.put(editor.label_at(number), editor.slot_at(number).until)
}

/// The text of a view of the map as SVG.
///
/// # Errors
/// Out of memory.
pub fn view_svg(alloc: Global, editor: &Editor, view: &View) -> Result<Seq<u8>, AllocError>
    ensures { IfOk result (λ text. IsViewText svg_body editor.now.state view.now text) }
{
    let numbers = shown(alloc, editor, view)?;
    let mut svg = SvgView::new(alloc, view)?;
    for number in numbers.as_slice() {
        add_svg(&mut svg, editor, *number)?;
    }
    svg.finish()
}

// Adds the label with this number to a drawing.
fn add_svg(svg: &mut SvgView, editor: &Editor, number: u32) -> Result<(), AllocError>
    requires { IsLive editor.now.engine.rows number }
    ensures { OnOk result ((row : Row) × Contains editor.now.engine.rows row × (row.number ≡ number)
        × (svg.new ≡ record {
          view = svg.old.view;
          text = svg.old.text ++ label_lines svg.old.view row.label;
        })) }
{
    svg.add(editor.label_at(number))
}

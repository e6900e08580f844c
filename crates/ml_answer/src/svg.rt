//! The SVG text of a view.
ghost use Rattle.std.specs.Prelude.{◌≡◌, ◌++◌, List, IfOk, OnOk, OnErr, string_bytes};
ghost use Rattle.std.specs.List.{flat_map};
ghost use Rattle.ml_cone.specs.declared.label.Label.{Label};
ghost use Rattle.ml_answer.specs.Svg.{head_line, label_lines, last_line, svg_text};

use crate::drawn::lines_of;
use ml_cone::{Label, View};
use ml_ratio::Seq;
use std::alloc::{AllocError, Global};
use std::marker::Model;

/// A view drawn as SVG, fed with the labels that it shows.
///
/// The text grows with each label, so the labels themselves are not kept.
#[derive(Drop)]
pub struct SvgView {
    view: View,
    text: Vec<u8>,
}

impl Model for SvgView {
    ghost use Rattle.ml_answer.specs.Svg.{SvgViewState};

    ghost Value = { SvgViewState };

    ghost view = { λ v. record { view = v.view; text = v.text.items } };
}

impl SvgView {
    /// A drawing of this view with no label yet.
    ///
    /// # Errors
    /// Out of memory.
    pub fn new(alloc: Global, view: &View) -> Result<SvgView, AllocError>
        ensures { IfOk result
            (λ svg. svg ≡ record { view = view.now; text = head_line view.now.w view.now.h }) }
    {
        let head = head_of(alloc, view.w, view.h)?;
        Ok(SvgView {
            view: *view,
            text: head.into_bytes(),
        })
    }

    /// Adds a label behind those that were added before.
    ///
    /// # Errors
    /// Out of memory, which leaves the drawing as it was.
    pub fn add(&mut self, label: &Label) -> Result<(), AllocError>
        ensures ok { OnOk result
            (self.new ≡ record {
              view = self.old.view;
              text = self.old.text ++ label_lines self.old.view label.now;
            }) }
        ensures err { OnErr result (self.new ≡ self.old) }
    {
        let alloc = *self.text.allocator();
        let lines = lines_of(alloc, &self.view, label)?;
        self.text.extend_from_slice(&lines)
    }

    /// The text of the drawing, in lines that end with LF.
    ///
    /// The first is `<svg ..>` with the window's width and height, the last `</svg>`. Between them
    /// each box of each label has a line `<text ..>` with its piece of text, in which `&`, `<` and
    /// `>` are written by their names. `x` and `y` are the box's left and bottom edge in pixels from
    /// the window's left and top edge, rounded down to hundredths and written as
    /// [`crate::write_px`] does; `font-size` is the box's height and `textLength` its width, in
    /// pixels.
    ///
    /// # Errors
    /// Out of memory.
    pub fn finish(self) -> Result<Seq<u8>, AllocError>
        ensures ok { IfOk result (λ text. text ≡ self.text ++ last_line) }
        ensures whole { IfOk result (λ text. (labels : List Label) →
            self.text
            ≡ head_line self.view.w self.view.h ++ flat_map (label_lines self.view) labels →
            text ≡ svg_text self.view labels) }
    {
        let mut text = self.text;
        text.extend_from_slice(b"</svg>\n")?;
        Ok(Seq::of_vec(text))
    }
}

// The first line.
fn head_of(alloc: Global, w: u32, h: u32) -> Result<String, AllocError>
    ensures { IfOk result (λ line. string_bytes line ≡ head_line w h) }
{
    format!(in alloc;
        "<svg xmlns=\"http://www.w3.org/2000/svg\" width=\"{w}\" height=\"{h}\" viewBox=\"0 0 {w} {h}\">\n"
    )
}

//! Laws over the definitions alone: a feature has one label only, and a map one list of labels. Each function
//! takes nothing and does nothing but call the laws below that it stands on: its contract is the law.
ghost use Rattle.std.specs.Prelude.{◌≡◌, ◌↔◌, Contains, List, Result};
ghost use Rattle.ml_ratio.specs.declared.feature.Feature.{Feature};
ghost use Rattle.ml_cone.specs.declared.label.Label.{Label};
ghost use Rattle.ml_style.specs.declared.style.Style.{Style};
ghost use Rattle.ml_label.specs.declared.reason.Reason.{Reason};
ghost use Rattle.ml_label.specs.Labelling.{IsLabelling, IsSameAnswer};
ghost use Rattle.ml_label.specs.Labels.{AreLabelsOf};

/// A style and a feature leave one answer only: a label with this order, this anchor (world units),
/// these boxes (pixels), these pieces of text, these scales (world units a pixel) and this margin
/// (pixels), or this reason why there is none. So whoever makes the labels of a map by the same rules makes the same labels.
pub fn one_label()
    ensures { (style : Style) (feature : Feature) (a b : Result Label Reason) →
        IsLabelling style feature a → IsLabelling style feature b → IsSameAnswer a b }
{
    ml_anchor::laws::one_area_anchor();
    ml_river::laws::one_place();
}

/// The labels of the same features under one style are one list, in whatever order the features stand.
pub fn one_list()
    ensures { (style : Style) (features others : List Feature) (labels rest : List Label) →
        ((f : Feature) → Contains features f ↔ Contains others f) →
        AreLabelsOf style features labels → AreLabelsOf style others rest → labels ≡ rest }
{
    one_label();
}

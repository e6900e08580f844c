//! Laws over the definitions alone: what is accepted is not refused, and is read in one way.
ghost use Rattle.std.specs.Prelude.{◌≡◌, ◌≢◌, ℕ, List};
ghost use Rattle.ml_style.specs.StyleTable.{IsStyle};
ghost use Rattle.ml_style.specs.Answer.{IsRefusal};
ghost use Rattle.ml_style.specs.declared.fault.StyleFault.{StyleFault};
ghost use Rattle.ml_style.specs.declared.style.Style.{Style};

/// The bytes of a style are refused only when memory runs out.
pub fn style_or_fault()
    ensures { (bytes : List ℕ) (style : Style) (fault : StyleFault) →
        IsStyle bytes style → IsRefusal bytes fault → fault ≡ StyleFault.Memory }
{}

/// A text writes one style at most.
pub fn one_style()
    ensures { (bytes : List ℕ) (one other : Style) →
        IsStyle bytes one → IsStyle bytes other → one ≡ other }
{}

/// One thing is wrong with a text that is no style, unless memory runs out.
pub fn one_fault()
    ensures { (bytes : List ℕ) (one other : StyleFault) →
        one ≢ StyleFault.Memory → other ≢ StyleFault.Memory →
        IsRefusal bytes one → IsRefusal bytes other → one ≡ other }
{}

//! A style: its classes in order, and its fonts by their names.
ghost use Rattle.std.specs.Prelude.{All};
ghost use Rattle.ml_style.specs.Fonts.{AreAscending, AreAscending-prop, HasFont};

use crate::class::Class;
use crate::font::Font;
use crate::fonts::{NamedFont, find_font};
use ml_ratio::{Seq, Text};

/// Which features of a map have a label, and how it looks.
///
/// The fonts stand in byte order of their names, each name once, and the font of each class is one of
/// them.
#[derive(Debug, Drop)]
pub struct Style {
    pub name_key: Text,
    pub rank_key: Text,
    pub classes: Seq<Class>,
    pub fonts: Seq<NamedFont>,
    ghost ascending: { AreAscending fonts } by { AreAscending-prop fonts },
    ghost known: { All (HasFont fonts) classes },
}

impl Style {
    ghost use Rattle.std.specs.Prelude.{◌≡◌, Some};
    ghost use Rattle.ml_style.specs.Fonts.{font_named};

    /// The key of the property that is a feature's name.
    pub fn name_key(&self) -> &Text
        ensures { result.now ≡ self.now.name_key }
    {
        &self.name_key
    }

    /// The key of the property that is a feature's rank.
    pub fn rank_key(&self) -> &Text
        ensures { result.now ≡ self.now.rank_key }
    {
        &self.rank_key
    }

    /// The classes, in order. The font of each is one of the style's.
    pub fn classes(&self) -> &Seq<Class>
        ensures classes { result.now ≡ self.now.classes }
        ensures known { All (HasFont self.now.fonts) result.now }
    {
        &self.classes
    }

    /// The font of a class of this style.
    pub fn font(&self, class: &Class) -> &Font
        requires { HasFont self.now.fonts class.now }
        ensures { Some result.now ≡ font_named self.now.fonts class.now.font }
    {
        match find_font(self.fonts.as_slice(), class.font.as_str()) {
            Some(font) => font,
            None => unreachable!(),
        }
    }
}

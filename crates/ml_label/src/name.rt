//! The name and the rank of a feature, which are properties that the style names.
ghost use Rattle.std.specs.Prelude.{◌≡◌, ◌==◌, ◌<◌, None, IfOk, IfSome, IsSome, IsUtf8, MatchBool, length};
ghost use Rattle.std.specs.List.{list_all};
ghost use Rattle.std.specs.Option.{option_copied};
ghost use Rattle.std.specs.Str.{chars};
ghost use Rattle.ml_text.specs.Label.{label_text as spec_label_text, shown as spec_shown};
ghost use Rattle.ml_label.specs.Name.{property as spec_property, name_in as spec_name_in, is_blank as spec_is_blank, label_name as spec_label_name, rank_in as spec_rank_in, rank_of as spec_rank_of};

use ml_json::whole_part;
use ml_ratio::{Feature, Prop, Scalar, Text};
use ml_style::Style;
use ml_text::label_text;
use std::alloc::{AllocError, Global};

// The value of the property with this key.
fn property<'a>(props: &'a [Prop], key: &str) -> Option<&'a Scalar>
    ensures { option_copied result ≡ spec_property key.now props.now }
{
    let prop = props.iter().find(|prop| prop.key.as_str() == key)?;
    Some(&prop.value)
}

// The text of a name: a string's, or a number's.
fn name_in(value: Option<&Scalar>) -> Option<&Text>
    ensures { option_copied result ≡ spec_name_in (option_copied value.entry) }
{
    match value {
        Some(Scalar::Str(text)) | Some(Scalar::Num(text)) => Some(text),
        _ => None,
    }
}

// Whether a text is empty or has only spaces.
fn is_blank(text: &str) -> bool
    ensures { result ≡ spec_is_blank text.now }
{
    text.as_bytes().iter().all(|byte| *byte == b' ')
}

/// The text of a feature's label: its name, with a space for each character that cannot be shown;
/// none where it has no name, or one of spaces alone.
///
/// # Errors
/// Out of memory.
pub fn label_name(
    alloc: Global,
    style: &Style,
    feature: &Feature,
) -> Result<Option<Text>, AllocError>
    ensures name { IfOk result (λ text. text ≡ spec_label_name style.now feature.now) }
    ensures some { IfOk result (λ text. IfSome text (λ t. 0 < length t)) }
    ensures utf8 { IfOk result (λ text. IfSome text IsUtf8) }
{
    let value = property(feature.props.as_slice(), style.name_key().as_str());
    let Some(name) = name_in(value) else {
        return Ok(None);
    };
    let text = label_text(alloc, name)?;
    if is_blank(text.as_str()) {
        return Ok(None);
    }
    Ok(Some(text))
}

// Whether the character is shown as a space.
fn is_shown_as_space(ch: char) -> bool
    ensures { result ≡ (spec_shown ch == 32) }
{
    matches!(
        ch,
        ' ' | '\0'..='\u{1f}' | '\u{7f}'..='\u{9f}' | '\u{fffe}' | '\u{ffff}'
    )
}

// Whether each character of the name is shown as a space.
fn has_only_spaces(name: &str) -> bool
    ensures { result ≡ list_all (λ ch. spec_shown ch == 32) (chars name.now) }
{
    name.chars().all(|ch| is_shown_as_space(ch))
}

// Whether the text of a label with this name would be empty or of spaces alone.
fn is_shown_blank(name: &str) -> bool
    ensures { result ≡ spec_is_blank (spec_label_text name.now) }
{
    has_only_spaces(name)
}

/// Whether a feature has a name for its label. It takes no memory.
pub fn has_name(style: &Style, feature: &Feature) -> bool
    ensures { MatchBool result (IsSome (spec_label_name style.now feature.now))
        (spec_label_name style.now feature.now ≡ None) }
{
    let key = style.name_key();
    match name_in(property(feature.props.as_slice(), key.as_str())) {
        Some(name) => !is_shown_blank(name.as_str()),
        None => false,
    }
}

// The whole part of a number, 0 to 2^53, and 0 for anything else.
fn rank_in(value: Option<&Scalar>) -> u64
    ensures { result ≡ spec_rank_in (option_copied value.entry) }
{
    match value {
        Some(Scalar::Num(text)) => whole_part(text),
        _ => 0,
    }
}

/// The rank of a feature, 0 to 2^53.
pub fn rank_of(style: &Style, feature: &Feature) -> u64
    ensures { result ≡ spec_rank_of style.now feature.now }
{
    rank_in(property(feature.props.as_slice(), style.rank_key().as_str()))
}

//! Members of a JSON map by their keys.
ghost use Rattle.std.specs.Prelude.{◌≡◌};
ghost use Rattle.std.specs.Option.{option_map, option_copied};
ghost use Rattle.ml_json.specs.Lent.{lent_of, lent_pairs_view};
ghost use Rattle.ml_geojson.specs.Members.{member as spec_member, is_text as spec_is_text};

use ml_json::{Lent, LentPair};

/// The value of the member with this key.
pub fn member<'b, 'a>(pairs: &'b [LentPair<'a>], key: &str) -> Option<&'b Lent<'a>>
    ensures { option_map lent_of (option_copied result)
        ≡ spec_member key.now (lent_pairs_view pairs.now) }
{
    for pair in pairs {
        // (keys as bytes: those that differ early are told apart without a call)
        if pair.key.as_str().as_bytes() == key.as_bytes() {
            return Some(&pair.value);
        }
    }
    None
}

/// Whether the value is this text.
pub fn is_text(value: Option<&Lent>, text: &str) -> bool
    ensures { result ≡ spec_is_text text.now (option_map lent_of (option_copied value.entry)) }
{
    match value {
        Some(Lent::Str(name)) => name.as_str().as_bytes() == text.as_bytes(),
        _ => false,
    }
}

//! The properties of a feature (RFC 7946, section 3.2). Lists and maps are passed over.
ghost use Rattle.std.specs.Prelude.{◌≡◌, ◌++◌, [], IfOk, OnOk};
ghost use Rattle.std.specs.Option.{option_map, option_copied};
ghost use Rattle.ml_json.specs.Lent.{lent_of, lent_pair_of, lent_pairs_view};
ghost use Rattle.ml_geojson.specs.Properties.{scalar as spec_scalar, with_scalar, scalars, properties};

use ml_json::{Lent, LentPair};
use ml_ratio::{Prop, Scalar, Seq};
use std::alloc::{AllocError, Global};

// The value of a property; none of lists and maps.
fn scalar(alloc: Global, value: &Lent) -> Result<Option<Scalar>, AllocError>
    ensures { IfOk result (λ scalar. scalar ≡ spec_scalar (lent_of value.now)) }
{
    Ok(match value {
        Lent::Null => Some(Scalar::Null),
        Lent::Flag(flag) => Some(Scalar::Flag(*flag)),
        Lent::Num(text) => Some(Scalar::Num(text.to_text(alloc)?)),
        Lent::Str(text) => Some(Scalar::Str(text.to_text(alloc)?)),
        Lent::List(_) | Lent::Map(_) => None,
    })
}

// Adds a member as a property, unless its value is a list or a map.
fn push_scalar(alloc: Global, props: &mut Seq<Prop>, pair: &LentPair) -> Result<(), AllocError>
    ensures { OnOk result (props.new ≡ props.old
        ++ with_scalar (lent_pair_of pair.now).0 (spec_scalar (lent_pair_of pair.now).1) []) }
{
    if let Some(value) = scalar(alloc, &pair.value)? {
        let key = pair.key.to_text(alloc)?;
        props.push(Prop { key, value })?;
    }
    Ok(())
}

// The members whose values are no lists and no maps.
fn read_scalars(alloc: Global, pairs: &[LentPair]) -> Result<Seq<Prop>, AllocError>
    ensures { IfOk result (λ props. props ≡ scalars (lent_pairs_view pairs.now)) }
{
    let mut props = Seq::new(alloc);
    for pair in pairs {
        push_scalar(alloc, &mut props, pair)?;
    }
    Ok(props)
}

/// The properties of a feature; none where the member is absent, null or no map.
pub fn read_props(alloc: Global, value: Option<&Lent>) -> Result<Seq<Prop>, AllocError>
    ensures { IfOk result
        (λ props. props ≡ properties (option_map lent_of (option_copied value.entry))) }
{
    match value {
        Some(Lent::Map(pairs)) => read_scalars(alloc, pairs.as_slice()),
        _ => Ok(Seq::new(alloc)),
    }
}

//! The features of a map.
ghost use Rattle.std.specs.Prelude.{◌≡◌, [], ℕ, ◌<◌, ◌≤◌, length, filter, All, is_some, nat_eq, OnOk, IfOk, MatchOption, Contains};
ghost use Rattle.std.specs.Option.{option_copied};
ghost use Rattle.std.specs.List.{IsDistinct};
ghost use Rattle.std.specs.Map.{keys_of, set_value};
ghost use Rattle.indexmap.specs.IndexMap.{spare};
ghost use Rattle.ml_geojson.specs.Map.{HaveDifferentIds};
ghost use Rattle.ml_editor.specs.Features.{standing};
ghost use Rattle.ml_editor.specs.declared.edit.Edit.TheVariants.{Add as add_edit, Replace as replace_edit, Remove as remove_edit};
ghost use Rattle.ml_editor.specs.State.{HasFeature, features_after};

use indexmap::IndexMap;
use ml_ratio::{Feature, Seq, Text};
use std::alloc::{AllocError, Global};
use std::marker::Model;

/// The features of a map in order, each found by its id.
///
/// Each feature has a number: `names` finds the number by the feature's id, and `places` finds the feature by
/// the number. Numbers count up from zero and are never given again, so the places stand in the order in which
/// the features came. A feature that goes leaves its place empty, so that no other feature has to move, and its
/// name goes with it. Where fewer than half of the places are taken, the empty ones are closed up at once.
///
/// The tables hash by the default hasher, whose seed is fixed, so whoever chooses the ids may make
/// them collide. A map has at most 32,768 features, so that even then a look-up compares no more
/// than so many ids, and no source of random numbers is needed to load a map.
#[derive(Drop)]
pub struct Features {
    places: IndexMap<u64, Option<Feature>>,
    names: IndexMap<Text, u64>,
    next: u64,
    taken: usize,
}

impl Model for Features {
    ghost use Rattle.std.specs.Map.{values_of};
    ghost use Rattle.indexmap.specs.IndexMap.{spare};
    ghost use Rattle.std.specs.Coded.{codes};
    ghost use Rattle.ml_ratio.specs.contracts.feature.Feature as feature;
    ghost use Rattle.ml_editor.specs.Features.{Kept, AreNumbered, standing, room_left};

    ghost Value = { Kept };

    ghost coded = { Prim.hlevel (codes, feature.the_row.coded) };

    ghost view = { λ a. record { list = values_of (standing a.places.entries); room = room_left (spare a.places) (spare a.names) a.next } };

    ghost invariant = { λ a. AreNumbered a.places.entries a.names.entries a.next a.taken };
}

impl Features {
    /// No features. It takes no memory.
    pub fn new(alloc: Global) -> Features
        ensures { result.list ≡ [] }
    {
        Features {
            places: IndexMap::new(alloc),
            names: IndexMap::new(alloc),
            next: 0,
            taken: 0,
        }
    }

    /// These features, in this order. No two may have the same id.
    ///
    /// # Errors
    /// Out of memory.
    pub fn of(alloc: Global, features: Seq<Feature>) -> Result<Features, AllocError>
        requires { HaveDifferentIds features }
        ensures { IfOk result (λ kept. kept.list ≡ features) }
    {
        let mut kept = Features::new(alloc);
        for feature in features.into_vec() {
            let key = feature.id.copy()?;
            kept.reserve()?;
            kept.add(key, feature);
        }
        Ok(kept)
    }

    /// The features again, in their order.
    ///
    /// # Errors
    /// Out of memory.
    pub fn copy(&self, alloc: Global) -> Result<Seq<Feature>, AllocError>
        ensures { IfOk result (λ features. features ≡ self.now.list) }
    {
        let mut features = Seq::new(alloc);
        for (_number, place) in self.places.iter() {
            if let Some(feature) = place {
                features.push(feature.copy()?)?;
            }
        }
        Ok(features)
    }

    /// How many there are.
    pub fn len(&self) -> usize
        ensures { result ≡ length self.now.list }
    {
        self.taken
    }

    /// The feature with this id; none where no feature has it.
    pub fn get(&self, id: &Text) -> Option<&Feature>
        ensures { MatchOption (option_copied result) (¬ (HasFeature self.now.list id.now))
            (λ f. Contains self.now.list f × (f.id ≡ id.now)) }
    {
        match self.names.get(id) {
            Some(number) => match self.places.get(number) {
                Some(place) => place.as_ref(),
                None => None,
            },
            None => None,
        }
    }

    /// Takes the room for one more.
    ///
    /// # Errors
    /// Out of memory; also where all numbers were given.
    pub fn reserve(&mut self) -> Result<(), AllocError>
        ensures ok { OnOk result (0 < self.new.room) }
        ensures same { self.new.list ≡ self.old.list }
        ensures room { self.old.room ≤ self.new.room }
    {
        if self.next == u64::MAX {
            return Err(AllocError);
        }
        self.names.reserve(1)?;
        self.places.reserve(1)
    }

    /// Adds a feature with a new id, the key, behind all others. There has to be room for it. It takes
    /// no memory and cannot fail.
    pub fn add(&mut self, key: Text, feature: Feature)
        requires room { 0 < self.old.room }
        requires key { key ≡ feature.id }
        requires new_id { ¬ (HasFeature self.old.list feature.id) }
        ensures { self.new.list ≡ features_after self.old.list (add_edit feature) }
    {
        let number = self.next;
        let _held = self.places.len();
        match self.names.insert(key, number) {
            Ok(_) => {}
            Err(_) => unreachable!(),
        }
        match self.places.insert(number, Some(feature)) {
            Ok(_) => {}
            Err(_) => unreachable!(),
        }
        self.next += 1;
        self.taken += 1;
    }

    /// Puts a feature in the place of that with its id, the key. It takes no memory and cannot fail.
    pub fn replace(&mut self, key: Text, feature: Feature)
        requires key { key ≡ feature.id }
        requires known { HasFeature self.old.list feature.id }
        ensures { self.new.list ≡ features_after self.old.list (replace_edit feature) }
    {
        match self.names.get(&key) {
            Some(number) => set_place(&mut self.places, *number, Some(feature)),
            None => unreachable!(),
        }
    }

    /// Takes the feature with this id out, if there is one. It takes no memory.
    pub fn remove(&mut self, id: &Text)
        ensures list { self.new.list ≡ features_after self.old.list (remove_edit id.now) }
        ensures room { self.old.room ≤ self.new.room }
    {
        match self.names.swap_remove(id) {
            Some(number) => {
                let _held = self.places.len();
                set_place(&mut self.places, number, None);
                self.taken -= 1;
                close_few(&mut self.places, self.taken);
            }
            None => {}
        }
    }
}

/// Puts this in the place with the number, if there is one. It takes no memory.
fn set_place(places: &mut IndexMap<u64, Option<Feature>>, number: u64, feature: Option<Feature>)
    ensures entries { places.new.entries ≡ set_value (nat_eq number) places.old.entries feature }
    ensures keys { keys_of places.new.entries ≡ keys_of places.old.entries }
    ensures differ { IsDistinct nat_eq (keys_of places.new.entries) }
    ensures room { spare places.old ≤ spare places.new }
{
    match places.get_mut(&number) {
        Some(place) => *place = feature,
        None => {}
    }
}

/// Closes up where fewer than half of the places are taken, which are so many. It takes no memory.
fn close_few(places: &mut IndexMap<u64, Option<Feature>>, taken: usize)
    requires { IsDistinct nat_eq (keys_of places.old.entries) }
    ensures standing { standing places.new.entries ≡ standing places.old.entries }
    ensures low { (next : ℕ) → All (λ n. n < next) (keys_of places.old.entries) →
        All (λ n. n < next) (keys_of places.new.entries) }
    ensures differ { IsDistinct nat_eq (keys_of places.new.entries) }
    ensures room { spare places.old ≤ spare places.new }
{
    if places.len() / 2 > taken {
        close_up(places);
    }
}

/// Closes up the places that are left. It takes no memory.
fn close_up(places: &mut IndexMap<u64, Option<Feature>>)
    ensures entries { places.new.entries ≡ filter (λ e. is_some e.1) places.old.entries }
    ensures differ { IsDistinct nat_eq (keys_of places.new.entries) }
    ensures room { spare places.old ≤ spare places.new }
{
    places.retain(
        |_number: &u64, place: &mut Option<Feature>| -> bool
            ensures { (result ≡ is_some place.old) × (place.new ≡ place.old) }
        { place.is_some() },
    );
}

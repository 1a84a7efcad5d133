//! Names in a list, with the places of those that are asked for.

ghost use Rattle.std.specs.Prelude.{◌≡◌, ◌≤◌, ℕ, List, true, length, position, bytes_eq, IfOk};
ghost use Rattle.std.specs.BTreeMap.{get_by};
ghost use Rattle.std.specs.Cmp.Lexicographic.{slice_cmp};
ghost use Rattle.std.specs.Ordering.{nat_cmp};
ghost use Rattle.plural_map_text.specs.Parts.{place_of};
ghost use Rattle.plural_map_text.specs.Rules.{has};
ghost use Rattle.plural_map_text.specs.Places.{is_placed};

use plural_bytes::{Memory, Name};
use std::alloc::Global;
use std::collections::BTreeMap;
use std::marker::Model;

/// A list of names, seen by contracts as that list. The first place of each name that was asked for when it was made is
/// kept in an ordered map; any other name is looked for in the list.
#[derive(Drop)]
pub(crate) struct Index<'a> {
    list: &'a [Name],
    places: BTreeMap<Name, usize>,
}

impl<'a> Model for Index<'a> {
    ghost use Rattle.std.specs.Prelude.{◌≡◌, ℕ, List, true};
    ghost use Rattle.std.specs.BTreeMap.{get_by};
    ghost use Rattle.std.specs.Cmp.Lexicographic.{slice_cmp};
    ghost use Rattle.std.specs.Ordering.{nat_cmp};
    ghost use Rattle.plural_map_text.specs.Places.{is_placed};

    ghost Value = { List (List ℕ) };

    ghost view = { λ x. x.list.now };

    ghost invariant = { λ x. (q : List ℕ)
        → is_placed x.list.now 0 q (get_by (λ k. slice_cmp nat_cmp q k) x.places) ≡ true };
}

impl<'a> Index<'a> {
    /// The list, with the first places of the names that are asked for.
    pub(crate) fn of(alloc: Global, list: &'a [Name], asked: &[Name]) -> Result<Index<'a>, Memory>
        ensures { IfOk result (λ x. x ≡ list.now) }
    {
        let unplaced = unplaced(alloc, asked, list)?;
        let places = placed(unplaced, list)?;
        Ok(Index { list, places })
    }

    /// How many names the list has.
    pub(crate) fn len(&self) -> usize
        ensures { result ≡ length self.now }
    {
        self.list.len()
    }

    /// The place, from 0, of the first of the names that is this one; how many there are if none is.
    pub(crate) fn place_of(&self, name: &Name) -> usize
        ensures place { result ≡ place_of self.now name.now }
        ensures bound { result ≤ length self.now }
    {
        match self.places.get(name).copied() {
            Some(place) => place,
            None => first_place(self.list, name),
        }
    }

    /// Is this name one of the list?
    pub(crate) fn has(&self, name: &Name) -> bool
        ensures { result ≡ has self.now name.now }
    {
        self.place_of(name) < self.list.len()
    }
}

fn first_place(names: &[Name], name: &Name) -> usize
    ensures { result ≡ place_of names.now name.now }
{
    find_name(names, name).unwrap_or(names.len())
}

fn find_name(names: &[Name], name: &Name) -> Option<usize>
    ensures { result ≡ position (λ n. bytes_eq n name.now) names.now }
{
    names.iter().position(|x| x == name)
}

/// The names that are asked for, each at the end of the list.
fn unplaced(alloc: Global, asked: &[Name], list: &[Name]) -> Result<BTreeMap<Name, usize>, Memory>
    ensures { IfOk result (λ m. (q : List ℕ)
        → is_placed list.now (length list.now) q (get_by (λ k. slice_cmp nat_cmp q k) m) ≡ true) }
{
    let mut places = BTreeMap::new(alloc);
    for name in asked {
        places.insert(*name, list.len())?;
    }
    Ok(places)
}

/// The names that are asked for, each at its first place in the list, or at the list's end if it isn't there.
fn placed(asked: BTreeMap<Name, usize>, list: &[Name]) -> Result<BTreeMap<Name, usize>, Memory>
    requires { (q : List ℕ)
        → is_placed list.now (length list.now) q (get_by (λ k. slice_cmp nat_cmp q k) asked) ≡ true }
    ensures { IfOk result (λ m. (q : List ℕ)
        → is_placed list.now 0 q (get_by (λ k. slice_cmp nat_cmp q k) m) ≡ true) }
{
    let mut places = asked;
    let mut at = list.len();
    while at > 0 {
        at -= 1;
        let name = list[at];
        if places.contains_key(&name) {
            places.insert(name, at)?;
        }
    }
    Ok(places)
}

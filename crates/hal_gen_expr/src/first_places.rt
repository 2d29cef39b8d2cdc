//! The first own places of phrases, found once for a process.

ghost use Rattle.std.specs.Prelude.{◌≡◌, map, IfOk, OnOk};
ghost use Rattle.hal_storage.specs.own_places.SeenPlaces.{seen_place};
ghost use Rattle.hal_gen_expr.specs.FirstPlaces as firsts;
ghost use Rattle.hal_gen_expr.specs.SeenSites.{lent_place};

use hal_storage::own_places::Place;
use std::alloc::{AllocError, Global};

/// The first one of each phrase among the own places of a process, found once for all of them.
#[derive(Drop)]
pub struct FirstPlaces {
    /// At the number of a phrase the number of its first place.
    numbers: Vec<Option<usize>>,
}

/// Makes numbers reach a phrase, where they end before it.
#[tactic(auto, using(crate::proofs::FirstFound::long_enough))]
fn hold(numbers: &mut Vec<Option<usize>>, owner: usize) -> Result<(), AllocError>
    ensures { OnOk result (numbers.new.items ≡ firsts.held numbers.old.items owner) }
{
    let Some(least) = owner.checked_add(1) else {
        return Err(AllocError);
    };
    if numbers.len() < least {
        numbers.resize(least, None)?;
    }
    Ok(())
}

/// Gives a phrase this number, unless it has one.
fn give(numbers: &mut Vec<Option<usize>>, owner: usize, number: usize)
    ensures { numbers.new.items ≡ firsts.given numbers.old.items owner number }
{
    if let Some(first) = numbers.get_mut(owner) {
        *first = Some(first.unwrap_or(number));
    }
}

/// Adds a place with this number.
fn add_place(
    numbers: &mut Vec<Option<usize>>,
    number: usize,
    place: &Place,
) -> Result<(), AllocError>
    ensures { OnOk result (numbers.new.items ≡ firsts.with_place numbers.old.items number (seen_place place.now)) }
{
    hold(numbers, place.owner)?;
    give(numbers, place.owner, number);
    Ok(())
}

/// Adds places, in order.
#[tactic(auto, unfolding(crate::specs::FirstPlaces::with_places))]
fn add_places(numbers: &mut Vec<Option<usize>>, places: &[&Place]) -> Result<(), AllocError>
    ensures { OnOk result (numbers.new.items ≡ firsts.with_places numbers.old.items 0 (map lent_place places.now)) }
{
    for (number, place) in places.iter().enumerate() {
        add_place(numbers, number, place)?;
    }
    Ok(())
}

impl FirstPlaces {
    /// Those of these places.
    #[tactic(auto, using(crate::proofs::FirstFound::all_found))]
    pub fn of(alloc: Global, places: &[&Place]) -> Result<FirstPlaces, AllocError>
        ensures { IfOk result (λ found. firsts.AreFirstPlaces (map lent_place places.now) found) }
    {
        let mut numbers = Vec::new(alloc);
        add_places(&mut numbers, places)?;
        Ok(FirstPlaces { numbers })
    }

    /// That of the phrase with this number, 0 where it has none.
    pub fn at(&self, owner: usize) -> usize
        ensures { result ≡ firsts.first_in self.now owner }
    {
        match self.numbers.get(owner) {
            Some(Some(number)) => *number,
            _ => 0,
        }
    }
}

// Spans and places as worked out by hand.
use crate::place::{PlaceRefusal, place};
use mir::places::{Intervals, Place, Places};
use rj_num::NoMemory;
use sqlite_items::Items;
use std::alloc::Global;

fn intervals_of(alloc: Global, spans: &[Option<(u32, u32)>]) -> Result<Intervals, NoMemory> {
    match Items::from_slice(alloc, spans) {
        Ok(spans) => Ok(Intervals { spans }),
        Err(_) => Err(NoMemory),
    }
}

fn stands_at(places: &Places, register: usize, place: Option<Place>) -> bool {
    match places.at.get(register) {
        Some(at) => *at == place,
        None => false,
    }
}

#[test]
fn twelve_over_eight_slots(rt: HostRuntime) -> Result<(), PlaceRefusal> {
    let alloc = rt.alloc();
    let intervals = intervals_of(alloc, &[Some((0, 10)); 12])?;
    let places = place(alloc, &intervals, 8)?;
    for register in 0..11usize {
        assert!(rt; stands_at(&places, register, Some(Place::Saved(register as u32))));
    }
    assert!(rt; stands_at(&places, 11, Some(Place::Slot(0))));
    Ok(())
}

#[test]
fn twenty_over_eight_slots(rt: HostRuntime) -> Result<(), PlaceRefusal> {
    let alloc = rt.alloc();
    let intervals = intervals_of(alloc, &[Some((0, 10)); 20])?;
    match place(alloc, &intervals, 8) {
        Err(PlaceRefusal::Crowded { point, overlap }) => assert!(rt; point == 0 && overlap == 20),
        _ => assert!(rt; false),
    }
    Ok(())
}

#[test]
fn places_are_used_again(rt: HostRuntime) -> Result<(), PlaceRefusal> {
    let alloc = rt.alloc();
    let spans = [
        Some((5, 6)),
        None,
        Some((0, 10)),
        Some((6, 8)),
        Some((2, 4)),
        Some((7, 3)),
        Some((7, 7)),
    ];
    let intervals = intervals_of(alloc, &spans)?;
    let places = place(alloc, &intervals, 0)?;
    assert!(rt; stands_at(&places, 0, Some(Place::Saved(1))));
    assert!(rt; stands_at(&places, 1, None));
    assert!(rt; stands_at(&places, 2, Some(Place::Saved(0))));
    assert!(rt; stands_at(&places, 3, Some(Place::Saved(2))));
    assert!(rt; stands_at(&places, 4, Some(Place::Saved(1))));
    assert!(rt; stands_at(&places, 5, Some(Place::Saved(0))));
    assert!(rt; stands_at(&places, 6, Some(Place::Saved(1))));
    Ok(())
}

#[test]
fn one_behind_the_other(rt: HostRuntime) -> Result<(), PlaceRefusal> {
    let alloc = rt.alloc();
    let intervals = intervals_of(alloc, &[Some((1, 2)), Some((3, 6))])?;
    let places = place(alloc, &intervals, 8)?;
    assert!(rt; stands_at(&places, 0, Some(Place::Saved(0))));
    assert!(rt; stands_at(&places, 1, Some(Place::Saved(0))));
    Ok(())
}

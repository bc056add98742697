//! Guessers, and panels of two.

use l3_base::GranuleNo;
use l3_guess::{Chosen, Flat, Guesser, Last, Mean, Panel};
use std::alloc::{AllocError, Global};

// Tells the reserves of the granules from 0 on.
fn tell_all<G: Guesser>(guesser: &mut G, reserves: &[u32]) {
    for (n, reserve) in reserves.iter().enumerate() {
        if let Some(number) = GranuleNo::new(n as u64) {
            guesser.tell(number, *reserve);
        }
    }
}

// What it guesses for granule 2 before any reserve is told, and afterwards.
fn guesses<G: Guesser>(guesser: &mut G, reserves: &[u32]) -> Option<(u32, u32)> {
    let next = GranuleNo::new(2)?;
    let before = guesser.guess(next);
    tell_all(guesser, reserves);
    Some((before, guesser.guess(next)))
}

// Those of a mean, of which nine reserves make it forget the first, of a last and of a flat one.
fn guesses_of_each() -> [Option<(u32, u32)>; 4] {
    let mut mean = Mean::new();
    [
        guesses(&mut mean, &[10, 21]),
        guesses(&mut mean, &[900, 1, 2, 3, 4, 5, 6, 7, 8]),
        guesses(&mut Last::new(), &[10, 21]),
        guesses(&mut Flat::new(7), &[10, 21]),
    ]
}

// Those of one in a box.
fn boxed_guesses(alloc: Global) -> Result<Option<(u32, u32)>, AllocError> {
    let mut chosen = Chosen(Box::new(alloc, Last::new())?);
    Ok(guesses(&mut chosen, &[10, 21]))
}

#[test]
fn guesses_of_mean_last_flat(rt: HostRuntime) {
    let wanted = [Some((0, 15)), Some((15, 4)), Some((0, 21)), Some((7, 7))];
    assert!(rt; guesses_of_each() == wanted);
    assert!(rt; boxed_guesses(rt.alloc()) == Ok(Some((0, 21))));
}

fn panel_of(
    alloc: Global,
    first: Box<dyn Guesser>,
    second: Box<dyn Guesser>,
) -> Result<Panel, AllocError> {
    Panel::new(alloc, vec![in alloc; first, second]?)
}

fn two_flat(alloc: Global, first: u32, second: u32) -> Result<Panel, AllocError> {
    let first = Box::new(alloc, Flat::new(first))?;
    panel_of(alloc, first, Box::new(alloc, Flat::new(second))?)
}

fn flat_and_last(alloc: Global) -> Result<Panel, AllocError> {
    let flat = Box::new(alloc, Flat::new(0))?;
    panel_of(alloc, flat, Box::new(alloc, Last::new())?)
}

fn mean_and_flat(alloc: Global) -> Result<Panel, AllocError> {
    let mean = Box::new(alloc, Mean::new())?;
    panel_of(alloc, mean, Box::new(alloc, Flat::new(4088))?)
}

// The score at a place, where a member is left there.
fn score_at(panel: &Panel, place: usize) -> Option<u128> {
    if place < panel.members() {
        Some(panel.score(place))
    } else {
        None
    }
}

// Two scores of a panel, and its guess for granule 2.
type Told = (Option<u128>, Option<u128>, Option<u32>);

// Those of a panel told these reserves.
fn told(panel: &mut Panel, reserves: &[u32]) -> Told {
    tell_all(panel, reserves);
    let guess = GranuleNo::new(2).map(|number| panel.guess(number));
    (score_at(panel, 0), score_at(panel, 1), guess)
}

// Those of a panel of two, and what two calls drop from it then.
fn told_then_dropped(alloc: Global) -> Result<(Told, [Option<usize>; 2]), AllocError> {
    let mut panel = two_flat(alloc, 0, 4088)?;
    let told = told(&mut panel, &[100, 200]);
    Ok((told, [panel.drop_worst(), panel.drop_worst()]))
}

#[test]
fn panel_scores(rt: HostRuntime) {
    let told = (Some(300), Some(7876), Some(0));
    assert!(rt; told_then_dropped(rt.alloc()) == Ok((told, [Some(1), None])));
}

// Those of a panel of two after 255, 256, 511, 512 and 767 reserves.
fn told_on_and_on(alloc: Global) -> Result<[Told; 5], AllocError> {
    let mut panel = two_flat(alloc, 0, 10)?;
    Ok([
        told(&mut panel, &[0; 255]),
        told(&mut panel, &[0]),
        told(&mut panel, &[0; 255]),
        told(&mut panel, &[0]),
        told(&mut panel, &[0; 255]),
    ])
}

// At the 256th tell one of two goes, and none at the 512th.
#[test]
fn worst_member_is_dropped(rt: HostRuntime) {
    let two = (Some(0), Some(2550), Some(0));
    let one = (Some(0), None, Some(0));
    assert!(rt; told_on_and_on(rt.alloc()) == Ok([two, one, one, one, one]));
}

#[test]
fn the_first_member_of_ten_and_zero_is_dropped(rt: HostRuntime) -> Result<(), AllocError> {
    let mut panel = two_flat(rt.alloc(), 10, 0)?;
    assert!(rt; told(&mut panel, &[0; 256]) == (Some(0), None, Some(0)));
    Ok(())
}

#[test]
fn members_are_told(rt: HostRuntime) -> Result<(), AllocError> {
    let mut panel = flat_and_last(rt.alloc())?;
    assert!(rt; told(&mut panel, &[100, 100]) == (Some(200), Some(100), Some(100)));
    Ok(())
}

// Before these reserves the mean guesses 0, 8, 10 and 7: it is told each once, and after its guess.
#[test]
fn a_mean_as_a_member(rt: HostRuntime) -> Result<(), AllocError> {
    let mut panel = mean_and_flat(rt.alloc())?;
    let scores = (Some(8 + 4 + 9 + 13), Some(4 * 4088 - 41), Some(10));
    assert!(rt; told(&mut panel, &[8, 12, 1, 20]) == scores);
    Ok(())
}

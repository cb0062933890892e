// The axis of each kind, with values worked strip by strip outside the code.
use crate::bar_layer::BarLayer;
use crate::deck::Deck;
use crate::shape::Shape;
use crate::slab::Slab;
use section::{Axis, Part, Sense, plastic_axis};

// The axis of a part with the empty shape, or the number of its refusal.
fn alone<P: Part>(part: &P, sense: Sense) -> Result<Axis, u8> {
    plastic_axis(part, &Shape::empty(), sense).map_err(|fault| fault.number())
}

fn axis(level: u16, moment: u64, imbalance: u64) -> Result<Axis, u8> {
    Ok(Axis {
        level,
        moment,
        imbalance,
    })
}

// Fills the deck with one slab and these layers, or gives the number of the refusal.
fn filled(deck: &mut Deck, layers: &[BarLayer]) -> Result<(), u8> {
    let slab = Slab {
        top: 0,
        breadth: 960,
        height: 128,
        fc: 4000,
    };
    deck.fill(slab, layers).map_err(|fault| fault.number())
}

#[test]
fn a_deck_and_its_bars(rt: HostRuntime) {
    let mut deck = Deck::empty();
    let low = BarLayer {
        strip: 176,
        area: 8882,
        fy: 30_000,
    };
    let high = BarLayer {
        strip: 166,
        area: 4957,
        fy: 60_000,
    };
    assert_eq!(rt; alone(&deck, Sense::Sagging), Err(11));
    assert_eq!(rt; filled(&mut deck, &[low, high]), Ok(()));
    assert_eq!(rt; filled(&mut deck, &[low; 7]), Err(10));
    assert_eq!(rt;
        alone(&deck, Sense::Hogging),
        axis(167, 5_360_160_000, 30_960_000)
    );
    assert_eq!(rt;
        alone(&deck, Sense::Sagging),
        axis(166, 91_122_648_000, 146_088_000)
    );
    assert_eq!(rt;
        alone(&deck.cracked(), Sense::Sagging),
        axis(167, 5_360_160_000, 30_960_000)
    );
}

#[test]
fn a_shape_by_its_table(rt: HostRuntime) {
    let shape = Shape::new(128, 50_000, &[1]);
    assert_eq!(rt; alone(&shape, Sense::Sagging), axis(128, 50_000, 50_000));
    let waisted = Shape::new(10, 50_000, &[192, 8, 8, 300]);
    assert_eq!(rt;
        alone(&waisted, Sense::Hogging),
        axis(13, 64_600_000, 4_600_000)
    );
    let unfit = Shape::new(128, 50_000, &[1, 0]);
    assert_eq!(rt; alone(&unfit, Sense::Sagging), Err(11));
    let tried = Shape::try_new(128, 50_000, &[1, 0]);
    assert_eq!(rt; tried.map_err(|fault| fault.number()), Err(10));
}

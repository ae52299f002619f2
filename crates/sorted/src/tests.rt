// Cards whose order goes by the rank alone, so that equal ranks can be told apart.
ghost use Rattle.std.specs.Prelude.{nat_le};
ghost use Rattle.std.proofs.Common.{rules};

use crate::{Ranked, Sorted};

#[derive(Clone, Copy)]
struct Card {
    rank: u8,
    mark: u8,
}

impl Ranked for Card {
    ghost before = { λ x y. nat_le x.rank y.rank };

    ghost total = { Prim.search rules };

    ghost transitive = { Prim.search rules };

    fn precedes(&self, other: &Card) -> bool {
        self.rank <= other.rank
    }
}

// The marks of four slots, of which `room` are lent, after cards of these ranks and marks 1, 2, 3 and 4.
fn marks_after(room: usize, ranks: [u8; 4]) -> [u8; 4] {
    let mut slots = [Card { rank: 0, mark: 0 }; 4];
    let mut cards = Sorted::new(&mut slots[0..room.min(4)]);
    for (rank, mark) in [(ranks[0], 1), (ranks[1], 2), (ranks[2], 3), (ranks[3], 4)] {
        cards.put(Card { rank, mark });
    }
    [slots[0].mark, slots[1].mark, slots[2].mark, slots[3].mark]
}

#[test]
fn equals_keep_their_turn_the_last_falls_out_and_the_rest_stays(rt: HostRuntime) {
    let cases = [
        (4, [2, 1, 2, 1], [2, 4, 1, 3]),
        (4, [7, 7, 7, 7], [1, 2, 3, 4]),
        (3, [3, 1, 2, 1], [2, 4, 3, 0]),
        (2, [2, 1, 2, 1], [2, 4, 0, 0]),
        (1, [1, 1, 0, 0], [3, 0, 0, 0]),
        (0, [1, 2, 3, 4], [0, 0, 0, 0]),
    ];
    for (room, ranks, marks) in cases {
        assert_eq!(rt; marks_after(room, ranks), marks);
    }
}

#[test]
fn items_are_what_is_in_so_far(rt: HostRuntime) {
    let mut slots = [Card { rank: 0, mark: 0 }; 4];
    let mut cards = Sorted::new(&mut slots);
    assert_eq!(rt; cards.items().len(), 0);
    cards.put(Card { rank: 5, mark: 1 });
    cards.put(Card { rank: 3, mark: 2 });
    assert_eq!(rt; cards.items().len(), 2);
}

ghost use Rattle.std.specs.Prelude.{◌≡◌, ◌≤◌, ◌<◌, ◌+◌, None, IfSome, IfNone, length, take};
ghost use Rattle.std.specs.List.{flat_map};
ghost use Rattle.l3_board.specs.Items.{on_offer};
ghost use Rattle.l3_board.specs.Replies.{FindsLeast, IsLeastAt, least_item};

use crate::cell::Content;
use crate::item::Numbered;

/// The cell and the number of the item on offer that has the least number, where one is on offer.
pub fn least_offered<T: Numbered>(cells: &[Content<T>]) -> Option<(usize, u64)>
    requires { length cells.now ≤ 64 }
    ensures some { IfSome result (λ found. (x : T) × IsLeastAt T.number_of cells.now found.0 found.1 x) }
    ensures none { IfNone result (least_item T.number_of (flat_map on_offer cells.now) ≡ None) }
{
    let mut least: Option<(usize, u64)> = None;
    for at in 0..cells.len() {
        least = lesser_at(cells, at, least);
    }
    least
}

// The least of the cells before, or this cell where its number is less.
fn lesser_at<T: Numbered>(
    cells: &[Content<T>],
    at: usize,
    least: Option<(usize, u64)>,
) -> Option<(usize, u64)>
    requires place { at < length cells.now }
    requires before { FindsLeast T.number_of (take at cells.now) least }
    ensures { FindsLeast T.number_of (take (at + 1) cells.now) result }
{
    let Content::Offered(item) = &cells[at] else {
        return least;
    };
    let number = item.number();
    if let Some((_, other)) = least {
        if other <= number {
            return least;
        }
    }
    Some((at, number))
}

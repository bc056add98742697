//! Items of granules, with a mark to know each by.

ghost use Rattle.std.specs.Prelude.{◌≡◌, ◌≤◌, ◌<◌, IfOk, vec_len};

use l3_board::Numbered;
use std::alloc::{AllocError, Global};

/// An item of a granule, with a mark of its own, which is its work too.
#[derive(Drop)]
pub struct Item {
    pub number: u64,
    pub mark: u64,
}

impl Numbered for Item {
    ghost number_of = { λ item. item.number };

    ghost work_of = { λ item. item.mark };

    fn number(&self) -> u64 {
        self.number
    }

    fn work(&self) -> u64 {
        self.mark
    }
}

pub fn marked(number: u64, mark: u64) -> Item
    ensures { (result.number ≡ number) × (result.mark ≡ mark) }
{
    Item { number, mark }
}

/// A blank for each cell, marked from 100 on.
pub fn blanks(alloc: Global, cells: u8) -> Result<Vec<Item>, AllocError>
    ensures { IfOk result (λ items. vec_len items ≡ cells) }
{
    let mut blanks = Vec::new(alloc);
    for cell in 0..cells {
        blanks.push(marked(0, 100 + u64::from(cell)))?;
    }
    Ok(blanks)
}

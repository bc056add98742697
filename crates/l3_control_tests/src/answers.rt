//! What an answer of a board shows: its name, and the number and the mark of the item that comes
//! with it, or zeros.

use crate::item::Item;
use l3_board::{Claim, Deposit, Offer, Take};

pub type Shown = (&'static str, u64, u64);

fn with(name: &'static str, item: &Item) -> Shown {
    (name, item.number, item.mark)
}

pub fn of_offer(answer: &Offer<Item>) -> Shown {
    match answer {
        Offer::Placed(item) => with("placed", item),
        Offer::Busy(item) => with("busy", item),
    }
}

pub fn of_claim(answer: &Claim<Item>) -> Shown {
    match answer {
        Claim::Job(item) => with("job", item),
        Claim::Nothing => ("nothing", 0, 0),
        Claim::Shut => ("claims shut", 0, 0),
    }
}

pub fn of_deposit(answer: &Deposit<Item>) -> Shown {
    match answer {
        Deposit::Kept => ("kept", 0, 0),
        Deposit::Late => ("late", 0, 0),
        Deposit::Stray(item) => with("stray", item),
    }
}

pub fn of_take(answer: &Take<Item>) -> Shown {
    match answer {
        Take::Got(item) => with("got", item),
        Take::Revoked(item) => with("revoked", item),
        Take::InWork(item) => with("in work", item),
        Take::NotOffered(item) => with("not offered", item),
    }
}

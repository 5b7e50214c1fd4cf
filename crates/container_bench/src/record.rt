//! Records of three numbers.

use bench_report::scattered;
use key_extract::RowOrder;
use std::cmp::Ordering;

/// A record.
#[derive(Clone, Copy)]
pub struct Record {
    pub id: u64,
    pub price: u64,
    pub owner: u64,
}

/// The record of this number among so many: no other has its id, three have its owner, and few its price.
pub(crate) fn nth_record(number: u64, count: u64) -> Record {
    let owners = (count / 4).max(1);
    Record {
        id: scattered(number),
        price: scattered(number ^ (1 << 40)) >> 40,
        owner: scattered(number % owners),
    }
}

/// The record that is looked for at a step of so many, in another order than that in which they were put in.
pub(crate) fn looked_for(step: u64, count: u64) -> Record {
    nth_record(step.wrapping_mul(7919) % count.max(1), count)
}

/// The record of an id that no other record has to have.
pub(crate) fn of_id(id: u64) -> Record {
    Record {
        id,
        price: 0,
        owner: 0,
    }
}

/// The order of prices.
pub(crate) struct ByPrice;

impl RowOrder<Record> for ByPrice {
    ghost use Rattle.std.specs.Ordering.{nat_cmp};
    ghost use Rattle.std.proofs.lemmas.Cmp.{nat_cmp_total, on_total};

    ghost comparison = { λ order a b. nat_cmp a.price b.price };

    fn compare(&self, a: &Record, b: &Record) -> Ordering {
        a.price.cmp(&b.price)
    }

    ghost comparison_total = { λ order. on_total (λ a. a.price) nat_cmp_total };
}

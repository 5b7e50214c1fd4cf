//! The seven indices, kept by hand with std's collections.

use crate::calls::Call;
use crate::measured::Measured;
use crate::record::{Record, looked_for, nth_record};
use std::alloc::{AllocError, Global};
use std::collections::{BTreeMap, HashMap};

/// Records in a vector, with as many of the collections beside it as are asked for. A call answers the number of a record,
/// from 1, or another number as it says; where nothing is found, 0.
#[derive(Drop)]
pub(crate) struct ByHand {
    alloc: Global,
    indices: usize,
    count: u64,
    records: Vec<Record>,
    sequence: Vec<u64>,
    row: Vec<u64>,
    by_price: BTreeMap<(u64, u64), u64>,
    by_id: BTreeMap<u64, u64>,
    by_owner: HashMap<u64, Vec<u64>>,
    ids: HashMap<u64, u64>,
    by_owner_and_price: BTreeMap<(u64, u64, u64), u64>,
}

// The number of an entry.
fn number(entry: Option<&u64>) -> u64 {
    match entry {
        Some(number) => *number,
        None => 0,
    }
}

impl ByHand {
    /// No records, for so many.
    pub(crate) fn new(alloc: Global, indices: usize, count: u64) -> ByHand {
        ByHand {
            alloc,
            indices,
            count,
            records: Vec::new(alloc),
            sequence: Vec::new(alloc),
            row: Vec::new(alloc),
            by_price: BTreeMap::new(alloc),
            by_id: BTreeMap::new(alloc),
            by_owner: HashMap::new(alloc),
            ids: HashMap::new(alloc),
            by_owner_and_price: BTreeMap::new(alloc),
        }
    }

    fn insert(&mut self, record: Record) -> u64 {
        if self.by_id.get(&record.id).is_some() {
            return 0;
        }
        self.enter(record).unwrap_or(0)
    }

    fn enter(&mut self, record: Record) -> Result<u64, AllocError> {
        self.records.push(record)?;
        let number = self.records.len() as u64;
        self.by_id.insert(record.id, number)?;
        if self.indices >= 3 {
            self.enter_three(record, number)?;
        }
        if self.indices >= 7 {
            self.enter_seven(record, number)?;
        }
        Ok(number)
    }

    fn enter_three(&mut self, record: Record, number: u64) -> Result<(), AllocError> {
        let price = (record.price, number);
        self.by_price.insert(price, number)?;
        if let Some(numbers) = self.by_owner.get_mut(&record.owner) {
            numbers.push(number)?;
            return Ok(());
        }
        let mut numbers = Vec::new(self.alloc);
        numbers.push(number)?;
        self.by_owner.insert(record.owner, numbers)?;
        Ok(())
    }

    fn enter_seven(&mut self, record: Record, number: u64) -> Result<(), AllocError> {
        self.sequence.push(number)?;
        self.row.push(number)?;
        self.ids.insert(record.id, number)?;
        let key = (record.owner, u64::MAX - record.price, number);
        self.by_owner_and_price.insert(key, number)?;
        Ok(())
    }

    // The first record that has the price.
    fn find_price(&self, record: Record) -> u64 {
        match self.by_price.range((record.price, 0)..).next() {
            Some((key, number)) if key.0 == record.price => *number,
            _ => 0,
        }
    }

    // The first record of the owner, and how many are the owner's.
    fn find_owner(&self, record: Record) -> (u64, u64) {
        match self.by_owner.get(&record.owner) {
            Some(numbers) => (number(numbers.first()), numbers.len() as u64),
            None => (0, 0),
        }
    }

    // The first record of the owner that has the price.
    fn find_owner_and_price(&self, record: Record) -> u64 {
        let price = u64::MAX - record.price;
        let from = (record.owner, price, 0);
        match self.by_owner_and_price.range(from..).next() {
            Some((key, number)) if key.0 == record.owner && key.1 == price => *number,
            _ => 0,
        }
    }

    // The first record whose id does not come before.
    fn lower(&self, record: Record) -> u64 {
        match self.by_id.range(record.id..).next() {
            Some((_, number)) => *number,
            None => 0,
        }
    }

    // How many records the list of all has, copied in the order of insertion.
    fn list(&self) -> u64 {
        match self.sequence.to_vec(self.alloc) {
            Ok(numbers) => numbers.len() as u64,
            Err(_) => 0,
        }
    }

    // How many it has, copied in the order of the ids.
    fn list_by_id(&self) -> u64 {
        let mut numbers = Vec::new(self.alloc);
        for number in self.by_id.values() {
            if numbers.push(*number).is_err() {
                return 0;
            }
        }
        numbers.len() as u64
    }

    // The price of the record of a number.
    fn price(&self, number: u64) -> u64 {
        match self.records.get((number as usize).saturating_sub(1)) {
            Some(record) => record.price,
            None => 0,
        }
    }

    // The sum of the prices in the order of insertion.
    fn walk(&self) -> u64 {
        let mut met = 0u64;
        for number in &self.sequence {
            met = met.wrapping_add(self.price(*number));
        }
        met
    }

    // The same in the order of the ids.
    fn walk_by_id(&self) -> u64 {
        let mut met = 0u64;
        for number in self.by_id.values() {
            met = met.wrapping_add(self.price(*number));
        }
        met
    }

    // The same in the middle half of the ids.
    fn walk_range(&self) -> u64 {
        let mut met = 0u64;
        for (_, number) in self.by_id.range((1 << 62)..(3 << 62)) {
            met = met.wrapping_add(self.price(*number));
        }
        met
    }

    // What a look-up of a record answers.
    fn looked_up(&self, call: Call, sought: Record) -> u64 {
        match call {
            Call::Find(2, _) => self.find_price(sought),
            Call::Find(3, _) => number(self.by_id.get(&sought.id)),
            Call::Find(4, _) => self.find_owner(sought).0,
            Call::Find(5, _) => number(self.ids.get(&sought.id)),
            Call::Find(6, _) => self.find_owner_and_price(sought),
            Call::Count(4, _) => self.find_owner(sought).1,
            Call::Lower(3, _) => self.lower(sought),
            _ => 0,
        }
    }

    // What the call of a number answers.
    fn made(&mut self, call: Call, at: u64) -> u64 {
        match call {
            Call::Insert => self.insert(nth_record(at, self.count)),
            Call::Nth(_) => number(self.row.get(at as usize)),
            _ => self.looked_up(call, looked_for(at, self.count)),
        }
    }
}

impl Measured for ByHand {
    type Call = Call;

    fn has(&self, call: Call) -> bool {
        matches!(
            call,
            Call::Insert
                | Call::Find(2..=6, _)
                | Call::Count(4, _)
                | Call::Lower(3, _)
                | Call::Nth(1)
                | Call::List(0 | 3)
                | Call::Walk(0 | 3)
                | Call::WalkRange(3)
        )
    }

    fn make(&mut self, call: Call, from: u64, to: u64) -> u64 {
        match call {
            Call::List(0) => self.list(),
            Call::List(_) => self.list_by_id(),
            Call::Walk(0) => self.walk(),
            Call::Walk(_) => self.walk_by_id(),
            Call::WalkRange(_) => self.walk_range(),
            _ => {
                let mut met = 0u64;
                for at in from..to {
                    met = met.wrapping_add(self.made(call, at));
                }
                met
            }
        }
    }
}

//! Prints whether each case holds of a set to which indices come, of the store, of each kind of index over it, of a set of
//! indices, and of several indices over one store, each in a column of its own.
#![tactic(auto)]

mod columns;
mod coming;
mod counted;
mod drawn;
mod equals;
mod every;
mod index;
mod items;
mod keys;
mod live;
mod lone;
mod numbers;
mod put;
mod ranks;
mod rows;
mod set;
mod slots;
mod store;
mod tens;
mod tree;
mod walks;

use std::alloc::Global;
use std::io;
use std::thread::Threads;

// Tells whether a case holds; of one for which there was no memory, or that ended before its end, neither.
fn tell(rt: &impl Print, case: &str, holds: Option<bool>) -> io::Result<()> {
    match holds {
        Some(true) => println!(rt; "{case}: holds"),
        Some(false) => println!(rt; "{case}: does not hold"),
        None => println!(rt; "{case}: was given up"),
    }
}

// Tells of each of some cases.
fn tell_each(rt: &impl Print, cases: &[(&str, Option<bool>)]) -> io::Result<()> {
    for (case, holds) in cases {
        tell(rt, case, *holds)?;
    }
    Ok(())
}

// The cases of the store and of the slots, each with whether it holds.
fn of_stores(rt: &impl Threads, alloc: Global) -> [(&'static str, Option<bool>); 6] {
    [
        (
            "links are kept by column",
            store::links_are_kept_by_column(alloc),
        ),
        (
            "links are kept apart whatever the columns",
            store::any_columns_keep_links(alloc),
        ),
        ("sizes in bytes", Some(store::are_sizes())),
        (
            "a store moves to another thread",
            store::moves_to_a_thread(rt, alloc),
        ),
        (
            "each record is dropped once",
            columns::each_is_dropped_once(alloc),
        ),
        (
            "the least free slot is taken first",
            Some(slots::script(alloc)),
        ),
    ]
}

// The cases of one kind of index each.
fn of_kinds(alloc: Global) -> [(&'static str, Option<bool>); 5] {
    [
        (
            "drawn changes of a sequence agree with a plain list",
            drawn::of_a_sequence(alloc),
        ),
        (
            "drawn changes of a row agree with a plain vector",
            drawn::of_a_row(alloc),
        ),
        (
            "equal keys are counted through growth",
            equals::are_counted_through_growth(alloc),
        ),
        (
            "the first of a key at each kind",
            equals::are_found_at_each_kind(alloc),
        ),
        (
            "walks from both ends meet in the middle",
            walks::meet_at_each_kind(alloc),
        ),
    ]
}

// The cases of what a call counts: comparisons, and links that are followed.
fn of_counts(alloc: Global) -> [(&'static str, Option<bool>); 7] {
    [
        (
            "each of a thousand ids is found by twenty comparisons",
            tree::are_found_by_few(alloc),
        ),
        (
            "a search makes as many comparisons as it says",
            tree::comparisons_are_counted(alloc),
        ),
        (
            "each call of an ordered tree says its comparisons",
            counted::tree_says_comparisons(alloc),
        ),
        (
            "each call of a ranked tree says its comparisons",
            counted::ranks_say_comparisons(alloc),
        ),
        (
            "each place says its links in each order",
            counted::places_say_links(alloc),
        ),
        (
            "the links that are followed are counted",
            ranks::counts_rising(alloc),
        ),
        (
            "places of a thousand ids take twenty links",
            ranks::links_are_few(alloc),
        ),
    ]
}

// The cases of indices that come to records, and go.
fn of_comings(alloc: Global) -> [(&'static str, Option<bool>); 2] {
    [
        (
            "an index of each kind comes to records and stays",
            coming::each_comes_and_stays(alloc),
        ),
        (
            "two records of one key keep a unique index out",
            coming::each_clashes(alloc),
        ),
    ]
}

// The cases of several indices.
fn of_several(alloc: Global) -> [(&'static str, Option<bool>); 4] {
    [
        (
            "one node stands in two rows",
            columns::one_node_in_two_rows(alloc),
        ),
        (
            "six columns stay as they were",
            columns::six_columns_stay(alloc),
        ),
        (
            "eight columns stay as they were",
            columns::eight_columns_stay(alloc),
        ),
        (
            "a record comes into each index of a set",
            set::script(alloc),
        ),
    ]
}

fn main(rt: HostRuntime) -> io::Result<()> {
    let alloc = rt.alloc();
    tell_each(&rt, &of_comings(alloc))?;
    tell_each(&rt, &of_stores(&rt, alloc))?;
    tell_each(&rt, &of_kinds(alloc))?;
    tell_each(&rt, &of_counts(alloc))?;
    tell_each(&rt, &of_several(alloc))
}

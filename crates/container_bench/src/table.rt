//! The table: a row for each call, with what it takes in the container and in what stands beside it.

use std::alloc::{AllocError, Global};
use std::rt::Runtime;
use std::time::Duration;
use std::{fmt, io};

/// How many sizes have columns.
pub(crate) const SIZE_COUNT: usize = 3;

/// The sizes, each with its number of rounds.
pub(crate) const SIZES: [(u64, u64); SIZE_COUNT] = [(1_000, 9), (100_000, 3), (1_000_000, 1)];

/// A number of records, and its column.
#[derive(Clone, Copy)]
pub(crate) struct Size {
    pub(crate) column: usize,
    pub(crate) count: u64,
}

/// What was asked: the container, or what stands beside it.
#[derive(Clone, Copy)]
pub(crate) enum Side {
    Container,
    Beside,
}

// What one side has in a row: its least numbers by column, and the sum of the answers of its last round.
#[derive(Clone, Copy)]
struct Cells {
    least: [Option<u64>; SIZE_COUNT],
    met: Option<u64>,
}

const NONE: Cells = Cells {
    least: [None; SIZE_COUNT],
    met: None,
};

#[derive(Clone, Copy)]
struct Row {
    name: &'static str,
    container: Cells,
    beside: Cells,
}

/// The rows, in the order in which they came.
#[derive(Drop)]
pub(crate) struct Table {
    rows: Vec<Row>,
}

impl Cells {
    fn with_number(self, column: usize, number: u64) -> Cells {
        let mut cells = self;
        if column < SIZE_COUNT {
            let least = cells.least[column].unwrap_or(number);
            cells.least[column] = Some(least.min(number));
        }
        cells
    }

    fn with_answer(self, met: u64) -> Cells {
        Cells {
            met: Some(met),
            ..self
        }
    }
}

impl Row {
    fn cells(self, side: Side) -> Cells {
        match side {
            Side::Container => self.container,
            Side::Beside => self.beside,
        }
    }

    fn with_cells(self, side: Side, cells: Cells) -> Row {
        match side {
            Side::Container => Row {
                container: cells,
                ..self
            },
            Side::Beside => Row {
                beside: cells,
                ..self
            },
        }
    }
}

impl Table {
    pub(crate) fn new(alloc: Global) -> Table {
        Table {
            rows: Vec::new(alloc),
        }
    }

    // The place of the row of this name, which comes last where there was none.
    fn place(&mut self, name: &'static str) -> Result<usize, AllocError> {
        for (place, row) in self.rows.iter().enumerate() {
            if row.name == name {
                return Ok(place);
            }
        }
        self.rows.push(Row {
            name,
            container: NONE,
            beside: NONE,
        })?;
        Ok(self.rows.len() - 1)
    }

    /// Keeps a number in the column of a size, where it is not less already.
    pub(crate) fn number(
        &mut self,
        name: &'static str,
        side: Side,
        size: Size,
        number: u64,
    ) -> Result<(), AllocError> {
        let place = self.place(name)?;
        if place < self.rows.len() {
            let row = self.rows[place];
            let cells = row.cells(side).with_number(size.column, number);
            self.rows[place] = row.with_cells(side, cells);
        }
        Ok(())
    }

    /// The same of the nanoseconds of one of so many calls.
    pub(crate) fn time(
        &mut self,
        name: &'static str,
        side: Side,
        size: Size,
        spent: Duration,
        calls: u64,
    ) -> Result<(), AllocError> {
        let nanos = spent.as_nanos().min(u64::MAX as u128) as u64;
        self.number(name, side, size, nanos / calls.max(1))
    }

    /// Keeps what the calls of a row answered.
    pub(crate) fn answer(
        &mut self,
        name: &'static str,
        side: Side,
        met: u64,
    ) -> Result<(), AllocError> {
        let place = self.place(name)?;
        if place < self.rows.len() {
            let row = self.rows[place];
            self.rows[place] = row.with_cells(side, row.cells(side).with_answer(met));
        }
        Ok(())
    }

    /// Prints the numbers of both sides in the columns of the sizes.
    pub(crate) fn print_numbers<R: Runtime>(
        &self,
        rt: &R,
        what: &str,
        beside: &str,
    ) -> io::Result<()> {
        let [(small, _), (middle, _), (large, _)] = SIZES;
        let sizes = Numbers([Some(small), Some(middle), Some(large)]);
        println!(rt; "{what:<44}{:>45}{beside:>45}", "container")?;
        println!(rt; "{:<44}{sizes}{sizes}", "")?;
        for row in &self.rows {
            let (container, beside) = (Numbers(row.container.least), Numbers(row.beside.least));
            println!(rt; "{:<44}{container}{beside}", row.name)?;
        }
        Ok(())
    }

    /// Prints the sums of what both sides answered.
    pub(crate) fn print_answers<R: Runtime>(&self, rt: &R, beside: &str) -> io::Result<()> {
        println!(rt;
            "{:<44}{:>21}{:>21}",
            "sums of answers", "container", beside
        )?;
        for row in &self.rows {
            let (container, beside) = (Answer(row.container.met), Answer(row.beside.met));
            println!(rt; "{:<44}{container}{beside}", row.name)?;
        }
        Ok(())
    }

    /// Whether both sides answered the same wherever both were asked.
    pub(crate) fn agrees(&self) -> bool {
        for row in &self.rows {
            if row.beside.met.is_some() && row.beside.met != row.container.met {
                return false;
            }
        }
        true
    }
}

// A sum of answers, or a dash.
#[derive(Clone, Copy)]
struct Answer(Option<u64>);

impl fmt::Display for Answer {
    fn fmt<W: fmt::Write>(&self, f: &mut fmt::Formatter<W>) -> fmt::Result {
        match self.0 {
            Some(met) => write!(f, "{met:>21}"),
            None => write!(f, "{:>21}", "-"),
        }
    }
}

// Numbers of several columns.
#[derive(Clone, Copy)]
struct Numbers([Option<u64>; SIZE_COUNT]);

impl fmt::Display for Numbers {
    fn fmt<W: fmt::Write>(&self, f: &mut fmt::Formatter<W>) -> fmt::Result {
        for number in self.0 {
            write_number(f, number)?;
        }
        Ok(())
    }
}

// Writes a number in groups of three digits, or a dash.
fn write_number<W: fmt::Write>(f: &mut fmt::Formatter<W>, number: Option<u64>) -> fmt::Result {
    match number {
        None => write!(f, "{:>15}", "-"),
        Some(number) if number < 1_000 => write!(f, "{number:>15}"),
        Some(number) if number < 1_000_000 => {
            write!(f, "{:>11},{:03}", number / 1_000, number % 1_000)
        }
        Some(number) => {
            let thousands = number / 1_000;
            let (millions, thousands) = (thousands / 1_000, thousands % 1_000);
            write!(f, "{millions:>7},{thousands:03},{:03}", number % 1_000)
        }
    }
}

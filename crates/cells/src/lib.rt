// Geopotential cells: the table of 990, and both directions between a cell and its index.
#![tactic(auto)]

mod table;

ghost use Rattle.std.specs.Prelude.{◌≡◌};
ghost use Rattle.refusal.specs.Told.{told};
ghost use Rattle.cells.specs.Cells.{is_cell, index_of, cell_at};
ghost use Rattle.cells.specs.Table.{decoded};

use refusal::Refusal;

#[derive(Clone, Copy, PartialEq, Eq, Debug)]
pub enum Letter {
    C,
    S,
}

// A coefficient of the geopotential; a value may also be none at all.
#[derive(Clone, Copy, PartialEq, Eq, Debug)]
pub struct Cell {
    pub letter: Letter,
    pub degree: u32,
    pub order: u32,
}

// The cell that an entry of the table stands for.
#[tactic(auto, unfolding(crate::specs::Table::decoded, num_whole::specs::Tests::pick, num_whole::specs::Tests::less))]
fn decode(entry: u16) -> Cell
    ensures { result ≡ decoded entry }
{
    let degree = entry as u32 / 32 % 32;
    let order = entry as u32 % 32;
    let letter = if entry < 1024 { Letter::C } else { Letter::S };
    Cell {
        letter,
        degree,
        order,
    }
}

// The cell at an index, or 4 where the index is not below 990.
pub fn cell_at(index: u32) -> Result<Cell, Refusal>
    ensures { told result ≡ cell_at index }
{
    if index < 990 {
        Ok(decode(table::entry(index as usize)))
    } else {
        Err(Refusal::Limits)
    }
}

// Whether the degree and the order are in their limits.
#[tactic(auto, unfolding(crate::specs::Cells::is_cell, num_whole::specs::Tests::between, num_whole::specs::Tests::both, num_whole::specs::Tests::up_to))]
fn within(cell: Cell) -> bool
    ensures { result ≡ is_cell cell }
{
    1 <= cell.degree && cell.degree <= 30 && cell.order <= cell.degree
}

// The index of a cell, or 4 where its degree or order is out of its limits.
pub fn index_of(cell: Cell) -> Result<u32, Refusal>
    ensures { told result ≡ index_of cell }
{
    let Cell {
        letter,
        degree,
        order,
    } = cell;
    if within(cell) {
        match letter {
            Letter::C => Ok(33 * (degree - 1) + order),
            Letter::S => Ok(33 * (30 - degree) + (32 - order)),
        }
    } else {
        Err(Refusal::Limits)
    }
}

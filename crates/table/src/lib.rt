// The table of operand and result bytes, and its entries.
#![tactic(auto)]

use crate::rows::ROWS;

mod rows;

ghost use Rattle.std.specs.Prelude.{◌≡◌, ◌<◌, get_or};
ghost use Rattle.model.specs.Instruction.{row_of, RowTable};
ghost use Rattle.table.specs.Column.{stack_number, column_number};

// The two stacks.
#[derive(Clone, Copy)]
pub enum WhichStack {
    Working,
    Returning,
}

// A column of the table: the bytes taken from a stack, the bytes pushed on a stack, the length of the instruction.
#[derive(Clone, Copy)]
pub enum Column {
    Taken(WhichStack),
    Pushed(WhichStack),
    Length,
}

// A caller that reads many entries makes the table once, and lends it. Its rows stand one after the other, five numbers each, as `RowTable`
// says of them (and `rows_of_four` reads them).
#[derive(Clone, Copy)]
pub struct Table {
    pub rows: [u8; 1280],
    ghost right: { RowTable rows },
}

// The place of the column in a row: what is pushed on a stack stands two columns after what is taken from it.
fn place(column: Column) -> usize
    ensures { (result ≡ column_number column) × (result < 5) }
{
    match column {
        Column::Taken(stack) => stack as usize,
        Column::Pushed(stack) => stack as usize + 2,
        Column::Length => 4,
    }
}

impl Table {
    pub fn new() -> Self {
        Table { rows: ROWS }
    }

    // A column of the row of an instruction byte.
    pub fn entry(&self, byte: u8, column: Column) -> u8
        ensures { result ≡ get_or (row_of byte) (column_number column) 0 }
    {
        self.rows[byte as usize * 5 + place(column)]
    }
}

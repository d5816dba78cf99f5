// Registers as the format has them: a row of numbers (crate `numbers`) up to the last that its kind of motion uses.
use crate::input::{Inlet, NotACase};
use crate::output::Outlet;
use registers::Registers;

#[derive(Clone, Copy)]
pub(crate) struct Row([u16; numbers::ROW]);

impl Row {
    // How many numbers there are, as the kind of motion tells, and of a character its stage.
    fn used(&self) -> usize {
        motion_numbers::used(self.0[numbers::KIND], self.0[numbers::STAGE])
    }

    // Whether each field can hold its number. That of the held word can hold one where none is held, which is for the call to refuse.
    fn fits(&self) -> bool {
        let mut fields = self.0;
        fields[numbers::HELD_WORD] = 0;
        numbers::fits(fields)
    }

    // Reads registers, where the space before them was read last.
    pub(crate) fn read(input: &mut Inlet) -> Result<Row, NotACase> {
        let mut row = Row([0; numbers::ROW]);
        for place in 0..numbers::ROW {
            // The kind and the stage stand before the numbers that they tell of.
            if place >= row.used() {
                break;
            }
            row.0[place] = input.number()?;
        }
        if row.fits() { Ok(row) } else { Err(NotACase) }
    }

    // Writes the numbers, with a space before each.
    pub(crate) fn write(&self, out: &mut Outlet) {
        for value in self.0.iter().take(self.used()) {
            out.number(*value);
        }
    }
}

impl From<Row> for Registers {
    fn from(row: Row) -> Registers {
        numbers::registers_of(row.0)
    }
}

impl From<Registers> for Row {
    fn from(registers: Registers) -> Row {
        Row(numbers::row_of(registers))
    }
}

// What a run is shown by: its points, the registers and the words that it left.
use crate::Memory;
use registers::Registers;
use std::io;
use std::io::Print;
use text::Text;

// Writes a line for each of the first `count` points.
pub(crate) fn write_points(out: &impl Print, points: &[u64], count: usize) -> io::Result<()> {
    for point in points.iter().take(count) {
        write_point(out, *point)?;
    }
    Ok(())
}

fn write_point(out: &impl Print, point: u64) -> io::Result<()> {
    let mut line = [0u8; 64];
    let mut text = Text::new(&mut line);
    printout::put_point(point, &mut text);
    console::write(out, text.as_bytes())
}

// The name of a number, and how that is written.
#[derive(Clone, Copy)]
enum Name {
    Decimal(&'static [u8]),
    Octal(&'static [u8]),
}

use Name::{Decimal, Octal};

// Writes a line for a name and its number.
fn write_name(out: &impl Print, name: Name, value: u16) -> io::Result<()> {
    let mut line = [0u8; 64];
    let mut text = Text::new(&mut line);
    match name {
        Decimal(name) => {
            text.put_all(name);
            text.put(b' ');
            text.put_decimal(value as u32);
        }
        Octal(name) => {
            text.put_all(name);
            text.put(b' ');
            text.put_address(value);
        }
    }
    text.put(b'\n');
    console::write(out, text.as_bytes())
}

// Writes a line for each name, with the numbers of a row.
fn write_names(out: &impl Print, names: &[Name], row: &[u16]) -> io::Result<()> {
    for (name, value) in names.iter().zip(row) {
        write_name(out, *name, *value)?;
    }
    Ok(())
}

// Writes the numbers of a line, which begin a row.
fn write_line(out: &impl Print, row: &[u16]) -> io::Result<()> {
    write_names(
        out,
        &[
            Decimal(b"line, minus y"),
            Decimal(b"line, minus x"),
            Decimal(b"line, magnitude of y"),
            Decimal(b"line, magnitude of x"),
            Decimal(b"line, moves"),
            Decimal(b"line, moves made"),
            Decimal(b"line, lit"),
            Decimal(b"line, escape"),
            Octal(b"line, last word"),
        ],
        row,
    )
}

fn write_bytes(out: &impl Print, row: &[u16]) -> io::Result<()> {
    write_names(
        out,
        &[
            Octal(b"bytes, word"),
            Decimal(b"bytes, right byte"),
            Decimal(b"bytes, moves left"),
            Octal(b"bytes, last word"),
        ],
        row,
    )
}

// Writes what an unfinished character waits for, by its stage, a row's number as the kind of motion is.
fn write_stage(out: &impl Print, row: &[u16], stage: u16) -> io::Result<()> {
    match stage {
        1 => write_names(
            out,
            &[
                Decimal(b"routine, short vectors"),
                Octal(b"routine, next word"),
            ],
            row,
        ),
        2 => write_bytes(out, row),
        3 => write_line(out, row),
        _ => Ok(()),
    }
}

// Writes every register by its name, and the motion that is under way.
pub(crate) fn write_registers(out: &impl Print, r: Registers) -> io::Result<()> {
    let row = numbers::row_of(r);
    write_names(
        out,
        &[
            Octal(b"display address"),
            Octal(b"pushdown pointer"),
            Decimal(b"x"),
            Decimal(b"y"),
            Decimal(b"data state"),
            Decimal(b"mode"),
            Decimal(b"scale"),
            Decimal(b"intensity"),
            Decimal(b"pen enable"),
            Decimal(b"pen hold"),
            Decimal(b"pen sense"),
            Decimal(b"blink"),
            Decimal(b"idle"),
            Octal(b"buttons"),
            Decimal(b"hit flag of bank 1"),
            Decimal(b"hit flag of bank 2"),
            Decimal(b"internal stop flag"),
            Decimal(b"external stop flag"),
            Decimal(b"vertical edge flag"),
            Decimal(b"horizontal edge flag"),
            Decimal(b"pen flag"),
            Decimal(b"manual interrupt flag"),
            Octal(b"initial conditions"),
            Decimal(b"running"),
            Decimal(b"stop request"),
            Decimal(b"word held"),
            Octal(b"held word"),
            Decimal(b"case"),
            Decimal(b"seven-bit codes"),
            Octal(b"starting address register"),
            Decimal(b"kind of motion"),
        ],
        &row[numbers::ADDRESS..],
    )?;
    // The kinds are numbers, as the replay format has them.
    let motion = &row[numbers::KIND + 1..];
    match row[numbers::KIND] {
        1 => write_line(out, motion),
        2 => write_bytes(out, motion),
        3 => {
            write_names(
                out,
                &[
                    Octal(b"character, word"),
                    Decimal(b"character, seven bits"),
                    Decimal(b"character, right"),
                    Decimal(b"stage of the character"),
                ],
                motion,
            )?;
            write_stage(out, &row[numbers::STAGE + 1..], row[numbers::STAGE])
        }
        _ => Ok(()),
    }
}

fn write_change(out: &impl Print, address: u16, old: u16, new: u16) -> io::Result<()> {
    let mut line = [0u8; 64];
    let mut text = Text::new(&mut line);
    text.put_address(address);
    text.put_all(b" was ");
    text.put_word(old);
    text.put_all(b", is ");
    text.put_word(new);
    text.put(b'\n');
    console::write(out, text.as_bytes())
}

// Writes each word that the run changed.
pub(crate) fn write_changed(out: &impl Print, memory: &Memory, before: &Memory) -> io::Result<()> {
    for address in 0..32768 {
        let at = address as usize;
        if memory[at] != before[at] {
            write_change(out, address, before[at], memory[at])?;
        }
    }
    Ok(())
}

// What the programs need of a console, as bytes: standard input, standard output and error, and the arguments of the command line.
#![tactic(auto)]

ghost use Rattle.std.specs.Prelude.{◌≡◌, ℕ, List, ◌≢◌, ◌≤◌, decimal, length, replicate, take, IfOk, IfErr, IsOk, OnErr};
ghost use Rattle.std.specs.Fn.{FnReturnsAt};
ghost use Rattle.std.specs.IoError.{error_kind};
ghost use Rattle.std.specs.declared.io.ErrorKind.TheVariants.{BrokenPipe};

use itoa::Buffer;
use std::env::{Env, FillError};
use std::io;
use std::io::{ErrorKind, Input, Print, Read};

// A list with the same everywhere. It is made in a function of its own, so that what is proved of the caller says nothing of each of its elements.
pub fn all<T: Copy, const N: usize>(value: T) -> [T; N]
    ensures { result ≡ replicate N value }
{
    [value; N]
}

// Reads once from standard input, and answers how many bytes it put at the start of a list: none where the input ends, or where the list has no room.
pub fn read_some(input: &impl Input, list: &mut [u8]) -> io::Result<usize>
    ensures { IfOk result (λ count. count ≤ length list.new) }
{
    let mut reader = input.reader();
    // A count that no run uses up: a loop that may not end wants a handle to wait, and the project allows none.
    for _ in 0..u64::MAX {
        match reader.read(list) {
            Ok(count) => return Ok(count),
            Err(error) => {
                // A signal came before a byte did.
                if error.kind() != ErrorKind::Interrupted {
                    return Err(error);
                }
            }
        }
    }
    Err(io::Error::from(ErrorKind::Interrupted))
}

// Reads standard input until a list is full or the input ends, and answers how many bytes it put at the start of the list.
pub fn read_full(input: &impl Input, list: &mut [u8]) -> io::Result<usize>
    ensures { IfOk result (λ count. count ≤ length list.new) }
{
    let mut filled = 0;
    // Each turn goes on by as much as was read, which nobody knows before, so that no range fits.
    while filled < list.len() {
        let count = read_some(input, &mut list[filled..])?;
        if count == 0 {
            return Ok(filled);
        }
        filled += count;
    }
    Ok(filled)
}

// Writes all of some bytes, to standard output or to standard error, as the handle is.
pub fn write(out: &impl Print, bytes: &[u8]) -> io::Result<()> {
    out.write_all(bytes)
}

// Puts the decimal digits of a number at the start of a list, and answers how many there are.
pub fn digits(number: u64, list: &mut [u8; 20]) -> usize
    ensures count { result ≤ 20 }
    ensures digits { take result list.new ≡ decimal number }
{
    let mut buffer = Buffer::new();
    let text = buffer.format(number).as_bytes();
    list[..text.len()].copy_from_slice(text);
    text.len()
}

// Writes a number in decimal.
pub fn write_decimal(out: &impl Print, number: u64) -> io::Result<()> {
    let mut list = [0u8; 20];
    let count = digits(number, &mut list);
    write(out, &list[..count])
}

// How many arguments the program was started with, its own name among them.
pub fn argument_count(start: &impl Env) -> usize {
    (0..usize::MAX)
        .find(|i| !is_argument(start, *i))
        .unwrap_or(usize::MAX)
}

// Whether there is an argument of a number: one with bytes finds no room in a list without any.
fn is_argument(start: &impl Env, i: usize) -> bool {
    match start.arg(i, &mut []) {
        Ok(_) => true,
        Err(FillError::TooLong) => true,
        Err(FillError::NotPresent) => false,
    }
}

// The argument of a number, which is put at the start of a list: no bytes where there is no such argument, and where it is longer than the list, which then has
// its first bytes.
pub fn argument<'a>(start: &impl Env, i: usize, list: &'a mut [u8]) -> &'a [u8]
    ensures { length result.now ≤ length list.old }
{
    let count = start.arg(i, list).unwrap_or(0);
    &list[..count]
}

// Tells an argument that cannot be taken, with what is wanted of it.
pub fn tell_argument(err: &impl Print, wanted: &[u8], argument: &[u8]) -> io::Result<()> {
    write(err, wanted)?;
    write(err, b": '")?;
    write(err, argument)?;
    write(err, b"' cannot be taken.\n")
}

// What is read of the argument of a number, which is put into a list. One that cannot be taken is told, with what is wanted of it.
pub fn value_of<T: Drop, F: Fn(&[u8]) -> Option<T>>(
    start: &impl Env,
    err: &impl Print,
    i: usize,
    list: &mut [u8],
    read: F,
    wanted: &[u8],
) -> io::Result<Option<T>>
    requires { F.IsAlwaysCallable read }
    ensures { IfOk result (λ value. (argument : List ℕ) × FnReturnsAt F.Fn read argument value) }
{
    let argument = argument(start, i, list);
    let value = read(argument);
    if value.is_none() {
        tell_argument(err, wanted, argument)?;
    }
    Ok(value)
}

// How a program ends, of what its writing came to: that nobody reads on is no fault.
pub fn ended(written: io::Result<()>) -> io::Result<()>
    ensures ok { IsOk written → IsOk result }
    ensures err { OnErr result (result ≡ written) }
    ensures read_on { IfErr result (λ error. error_kind error ≢ BrokenPipe) }
{
    match written {
        Ok(()) => Ok(()),
        Err(error) => {
            if error.kind() == ErrorKind::BrokenPipe {
                Ok(())
            } else {
                Err(error)
            }
        }
    }
}

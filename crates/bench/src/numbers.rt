// Printing, and a value as it counts under a bit.
use refusal::Reply;
use std::fmt::Display;
use std::io;

// A value as it counts under a bit: as it is under 1, its opposite under 0.
pub fn signed(bit: usize, x: i16) -> i32 {
    let wide = i32::from(x);
    if bit == 1 { wide } else { -wide }
}

// Each in decimal, with a space after it.
pub fn put_all<T: Display>(rt: &impl Print, xs: &[T]) -> io::Result<()> {
    for x in xs {
        print!(rt; "{x} ")?;
    }
    Ok(())
}

// These and the number of a reply, with a line end after it.
pub fn put_line<T: Display>(rt: &impl Print, xs: &[T], reply: Reply) -> io::Result<()> {
    put_all(rt, xs)?;
    println!(rt; "{}", refusal::number_of(reply))
}

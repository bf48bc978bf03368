// A sheet, read until the input ends or the room is full.
ghost use Rattle.std.specs.Prelude.{◌≡◌, ◌≤◌, length, take, IfSome};
ghost use Rattle.receiver.specs.Bytes.{IsReadOn, IsRead};
ghost use Rattle.receiver.specs.laws.Counted.{Counted};

use std::io;
use std::io::Read;

// One more read, to the room from `from` on: how many bytes are in it then, or that the read failed.
fn read_on<R: Read>(source: &mut R, buf: &mut [u8], from: usize) -> io::Result<usize>
    requires { from ≤ length buf.old }
    ensures counted { Counted from (length buf.old) result }
    ensures before { take from buf.new ≡ take from buf.old }
    ensures bytes { IsReadOn (R.remaining source.old) (R.remaining source.new) from buf.new result }
{
    let count = source.read(&mut buf[from..])?;
    Ok(from + count)
}

// Reads until the input ends, the room is full or a read fails.
pub fn read_sheet<R: Read>(source: &mut R, buf: &mut [u8]) -> io::Result<usize>
    ensures counted { Counted 0 (length buf.old) result }
    ensures bytes { IfSome (R.remaining source.old) (λ input. IsRead input buf.new result) }
{
    let mut done = 0;
    while done < buf.len() {
        let count = read_on(source, buf, done)?;
        if count == done {
            return Ok(done);
        }
        done = count;
    }
    Ok(done)
}

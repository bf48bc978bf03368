// Numbers in text: at most five digits, no leading zero, no `-0`.
ghost use Rattle.std.specs.Prelude.{true, ◌≡◌};
ghost use Rattle.lists.specs.Lists.{every};
ghost use Rattle.text.specs.Decimal.{is_digit, numeral, value_of};
ghost use Rattle.text.specs.Decimal.{natural as natural_in, integer as integer_in};
ghost use Rattle.text.specs.Lent.{natural_of, integer_of};

fn all_digits(field: &[u8]) -> bool
    ensures { result ≡ every is_digit field.now }
{
    field.iter().all(|b| (b'0'..=b'9').contains(b))
}

// One to five digits, the first of several not 0.
#[tactic(auto, using(crate::proofs::Reading::numerals))]
fn is_numeral(field: &[u8]) -> bool
    ensures { result ≡ numeral field.now }
{
    (1..=5).contains(&field.len()) && all_digits(field) && (field.len() == 1 || field[0] != b'0')
}

// The number that a numeral writes.
fn value(field: &[u8]) -> u32
    requires { numeral field.now ≡ true }
    ensures { result ≡ value_of field.now }
{
    let mut v = 0;
    for digit in field {
        v = 10 * v + u32::from(*digit - b'0');
    }
    v
}

// The number that a field is, with no minus sign, or that it is none. The field is only read.
#[tactic(auto, using(crate::proofs::Reading::naturals))]
pub fn read_natural(field: &[u8]) -> Option<u32>
    ensures { natural_of result ≡ natural_in field.now }
{
    if !is_numeral(field) {
        return None;
    }
    Some(value(field))
}

// The value that a field is, or that it is none. The field is only read.
#[tactic(auto, using(crate::proofs::Reading::integers))]
pub fn read_integer(field: &[u8]) -> Option<i32>
    ensures { integer_of result ≡ integer_in field.now }
{
    let [b'-', rest @ ..] = field else {
        return Some(read_natural(field)? as i32);
    };
    let n = read_natural(rest)?;
    if n == 0 {
        return None;
    }
    Some(-(n as i32))
}

//! Fields, printed behind what a text has already. Script lines and outcome lines are made of them. Out of memory, the
//! text is as it was.

ghost use Rattle.std.specs.Prelude.{◌≡◌, ◌≤◌, ◌<◌, ◌+◌, ◌*◌, ◌∷◌, ◌++◌, length, drop, slice_index, OnOk, OnErr};
ghost use Rattle.std.specs.Fmt.{decimal};
ghost use Rattle.hex.specs.Hex.{encode_lower, lower_digits};
ghost use Rattle.sg_base.specs.Fields.{address_text};
ghost use Rattle.sg_lines.specs.LineText.{hex_text};

use itoa::{Buffer, write_digits};
use sg_base::{Address, NoMemory};

/// The octets of the longest address, `255.255.255.255:65535`.
const ADDRESS_MOST: usize = 21;

/// Adds that text.
pub fn push(out: &mut Vec<u8>, part: &[u8]) -> Result<(), NoMemory>
    ensures added { OnOk result (out.new.items ≡ out.old.items ++ part.now) }
    ensures same { OnErr result (out.new.items ≡ out.old.items) }
{
    Ok(out.extend_from_slice(part)?)
}

/// Adds the decimal digits of the number.
pub fn push_number(out: &mut Vec<u8>, n: u64) -> Result<(), NoMemory>
    ensures added { OnOk result (out.new.items ≡ out.old.items ++ decimal n) }
    ensures same { OnErr result (out.new.items ≡ out.old.items) }
{
    let mut digits = Buffer::new();
    push(out, digits.format(n).as_bytes())
}

/// Writes the number and the mark behind it so that they end at `end`, and answers where they start.
fn write_marked(n: u8, mark: u8, text: &mut [u8], end: usize) -> usize
    requires { (4 ≤ end) × (end ≤ length text.old) }
    ensures start { (end ≤ result + 4) × (result < end) }
    ensures written { drop result text.new ≡ decimal n ++ mark ∷ drop end text.old }
{
    text[end - 1] = mark;
    write_digits(u64::from(n), text, end - 1)
}

/// Writes the address so that it ends where the text does, and answers where it starts.
fn write_address(a: &Address, text: &mut [u8]) -> usize
    requires { length text.old ≡ 21 }
    ensures start { result < 21 }
    ensures written { drop result text.new ≡ address_text a.now }
{
    let [first, second, third, fourth] = a.ip;
    let port = write_digits(u64::from(a.port), text, ADDRESS_MOST);
    let fourth = write_marked(fourth, b':', text, port);
    let third = write_marked(third, b'.', text, fourth);
    let second = write_marked(second, b'.', text, third);
    write_marked(first, b'.', text, second)
}

/// Adds the address: four numbers with points between them, a colon, and the port.
pub fn push_address(out: &mut Vec<u8>, a: &Address) -> Result<(), NoMemory>
    ensures added { OnOk result (out.new.items ≡ out.old.items ++ address_text a.now) }
    ensures same { OnErr result (out.new.items ≡ out.old.items) }
{
    let mut text = [0; ADDRESS_MOST];
    let start = write_address(a, &mut text);
    push(out, &text[start..])
}

/// The digit of four bits: `a` stands 39 behind what follows `9`.
fn digit(four: u8) -> u8
    requires { four < 16 }
    ensures { result ≡ slice_index lower_digits four }
{
    four + 48 + 39 * ((four + 6) / 16)
}

/// Writes two digits for each octet, in the form that the compiler makes lanes of.
fn write_pairs(octets: &[u8], text: &mut [u8])
    requires { length text.old ≡ 2 * length octets.now }
    ensures { text.new ≡ encode_lower octets.now }
{
    'octets: for i in 0..octets.len() {
        text[2 * i] = digit(octets[i] / 16);
        text[2 * i + 1] = digit(octets[i] % 16);
    }
}

/// Adds pairs of lower-case digits, or a hyphen for no octets.
pub fn push_hex(out: &mut Vec<u8>, octets: &[u8]) -> Result<(), NoMemory>
    ensures added { OnOk result (out.new.items ≡ out.old.items ++ hex_text octets.now) }
    ensures same { OnErr result (out.new.items ≡ out.old.items) }
{
    match octets {
        [] => push(out, b"-"),
        _ => push_pairs(out, octets),
    }
}

/// Adds pairs of lower-case digits.
fn push_pairs(out: &mut Vec<u8>, octets: &[u8]) -> Result<(), NoMemory>
    ensures added { OnOk result (out.new.items ≡ out.old.items ++ encode_lower octets.now) }
    ensures same { OnErr result (out.new.items ≡ out.old.items) }
{
    let start = out.len();
    let Some(end) = start.checked_add(2 * octets.len()) else {
        return Err(NoMemory);
    };
    out.resize(end, 0)?;
    write_pairs(octets, &mut out.as_mut_slice()[start..]);
    Ok(())
}
